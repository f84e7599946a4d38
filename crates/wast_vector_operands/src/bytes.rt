//! The bytes of vectors.
ghost use Rattle.std.specs.Prelude.{◌≡◌};
ghost use Rattle.std.specs.Int.{w8, w16, w32, w64};
ghost use Rattle.std.specs.List.{flat_map};
ghost use Rattle.wast_vector_operands.specs.VectorViews.{vector_tree, lane_bytes, vector_bytes};

use crate::vector::V128Const;

impl<'a> V128Const<'a> {
    /// The bytes of the lanes, of each the low byte first; none of lanes that are floats.
    pub fn to_le_bytes(&self) -> Option<[u8; 16]>
        ensures { result ≡ vector_bytes (vector_tree self.now) }
    {
        match self {
            V128Const::I8x16(lanes) => Some(i8x16_bytes(lanes)),
            V128Const::I16x8(lanes) => Some(i16x8_bytes(lanes)),
            V128Const::I32x4(lanes) => Some(i32x4_bytes(lanes)),
            V128Const::I64x2(lanes) => Some(i64x2_bytes(lanes)),
            V128Const::F32x4(..) => None,
            V128Const::F64x2(..) => None,
        }
    }
}

fn i8x16_bytes(lanes: &[i8; 16]) -> [u8; 16]
    ensures { result ≡ flat_map (lane_bytes w8) lanes.now }
{
    let [a] = i8_bytes(&lanes[0]);
    let [b] = i8_bytes(&lanes[1]);
    let [c] = i8_bytes(&lanes[2]);
    let [d] = i8_bytes(&lanes[3]);
    let [e] = i8_bytes(&lanes[4]);
    let [f] = i8_bytes(&lanes[5]);
    let [g] = i8_bytes(&lanes[6]);
    let [h] = i8_bytes(&lanes[7]);
    let [i] = i8_bytes(&lanes[8]);
    let [j] = i8_bytes(&lanes[9]);
    let [k] = i8_bytes(&lanes[10]);
    let [l] = i8_bytes(&lanes[11]);
    let [m] = i8_bytes(&lanes[12]);
    let [n] = i8_bytes(&lanes[13]);
    let [o] = i8_bytes(&lanes[14]);
    let [p] = i8_bytes(&lanes[15]);
    [a, b, c, d, e, f, g, h, i, j, k, l, m, n, o, p]
}

fn i8_bytes(lane: &i8) -> [u8; 1]
    ensures { result ≡ lane_bytes w8 lane.now }
{
    lane.cast_unsigned().to_le_bytes()
}

fn i16x8_bytes(lanes: &[i16; 8]) -> [u8; 16]
    ensures { result ≡ flat_map (lane_bytes w16) lanes.now }
{
    let [a0, a1] = i16_bytes(&lanes[0]);
    let [b0, b1] = i16_bytes(&lanes[1]);
    let [c0, c1] = i16_bytes(&lanes[2]);
    let [d0, d1] = i16_bytes(&lanes[3]);
    let [e0, e1] = i16_bytes(&lanes[4]);
    let [f0, f1] = i16_bytes(&lanes[5]);
    let [g0, g1] = i16_bytes(&lanes[6]);
    let [h0, h1] = i16_bytes(&lanes[7]);
    [
        a0, a1, b0, b1, c0, c1, d0, d1, e0, e1, f0, f1, g0, g1, h0, h1,
    ]
}

fn i16_bytes(lane: &i16) -> [u8; 2]
    ensures { result ≡ lane_bytes w16 lane.now }
{
    lane.cast_unsigned().to_le_bytes()
}

fn i32x4_bytes(lanes: &[i32; 4]) -> [u8; 16]
    ensures { result ≡ flat_map (lane_bytes w32) lanes.now }
{
    let [a0, a1, a2, a3] = i32_bytes(&lanes[0]);
    let [b0, b1, b2, b3] = i32_bytes(&lanes[1]);
    let [c0, c1, c2, c3] = i32_bytes(&lanes[2]);
    let [d0, d1, d2, d3] = i32_bytes(&lanes[3]);
    [
        a0, a1, a2, a3, b0, b1, b2, b3, c0, c1, c2, c3, d0, d1, d2, d3,
    ]
}

fn i32_bytes(lane: &i32) -> [u8; 4]
    ensures { result ≡ lane_bytes w32 lane.now }
{
    lane.cast_unsigned().to_le_bytes()
}

fn i64x2_bytes(lanes: &[i64; 2]) -> [u8; 16]
    ensures { result ≡ flat_map (lane_bytes w64) lanes.now }
{
    let [a0, a1, a2, a3, a4, a5, a6, a7] = i64_bytes(&lanes[0]);
    let [b0, b1, b2, b3, b4, b5, b6, b7] = i64_bytes(&lanes[1]);
    [
        a0, a1, a2, a3, a4, a5, a6, a7, b0, b1, b2, b3, b4, b5, b6, b7,
    ]
}

fn i64_bytes(lane: &i64) -> [u8; 8]
    ensures { result ≡ lane_bytes w64 lane.now }
{
    lane.cast_unsigned().to_le_bytes()
}
