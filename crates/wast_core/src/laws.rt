//! The laws of modules: functions whose contracts are the laws. They do nothing.
ghost use Rattle.wast_core.specs.Laws.{OneModule, OneText};

/// Tokens spell one module at most: in parentheses behind the word `module`, and as a whole text.
pub fn one_module()
    ensures form { OneModule }
    ensures text { OneText }
{}
