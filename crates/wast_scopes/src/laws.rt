//! Laws over the definitions that contracts cite: functions without parameters whose contracts are the laws. They do nothing.

ghost use Rattle.wast_scopes.specs.Laws.{IsModule, IsTold};

/// What is demanded by what a scope tells is what is demanded in the scope.
pub fn told()
    ensures { IsTold }
{}

/// What is known outside functions is what the scope of a module tells.
pub fn module()
    ensures { IsModule }
{}
