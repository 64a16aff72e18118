// Laws of what a run holds of its child's output. Each function is one law, and does nothing.
ghost use Rattle.child_core.specs.Output.{StartsHold, ItemsHold, ActsHold, DrainsHold, EndsHold, HoldsBehind, OutputIsWhole};

/// A run whose Start is given holds all of its child's output: none.
pub fn starts_hold()
    ensures { StartsHold }
{}

/// A run that notes an item holds what it held and what the item brought, where there was room for it.
pub fn items_hold()
    ensures { ItemsHold }
{}

/// Acts bring no output.
pub fn acts_hold()
    ensures { ActsHold }
{}

/// What is drained was handed on, in order.
pub fn drains_hold()
    ensures { DrainsHold }
{}

/// What its connection ends needs no output any more.
pub fn ends_hold()
    ensures { EndsHold }
{}

/// Items that don't name the child may stand before.
pub fn holds_behind()
    ensures { HoldsBehind }
{}

/// What was drained and what is kept are the child's whole output.
pub fn output_is_whole()
    ensures { OutputIsWhole }
{}
