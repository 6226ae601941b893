//! Laws of the meaning: each contract is one, and the functions do nothing.
ghost use Rattle.c_tree.specs.Laws.{AreSteady, GoWhereAnotherStepWouldBegin, StepsAreBounded};

/// With more steps a program puts no other words, and what has ended or trapped stays as it is.
pub fn is_steady()
    ensures { AreSteady }
{}

/// A program goes on exactly where all steps were begun and it would begin another.
pub fn go_where_another_step_would_begin()
    ensures { GoWhereAnotherStepWouldBegin }
{}

/// At most so many steps are begun as were given, and all of them where the program goes on.
pub fn steps_are_bounded()
    ensures { StepsAreBounded }
{}
