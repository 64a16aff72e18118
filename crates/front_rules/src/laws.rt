// Laws of the rules that both fronts keep. Each function is one law, and does nothing.
ghost use Rattle.front_rules.specs.RuleLaws.{ChildrenAreTold, EachKeeps, OrdersRise, RulesJoin};

/// A rule on each of these acts is a rule on the first ones, and then on those that follow.
pub fn rules_join()
    ensures { RulesJoin }
{}

/// Where a rule on each act is kept in a step, every act keeps it after what stands before that act.
pub fn each_keeps()
    ensures { EachKeeps }
{}

/// In acts in order none stands before one with a lower place.
pub fn orders_rise()
    ensures { OrdersRise }
{}

/// The rules on children are for each child of the connection that was not settled before the step.
pub fn children_are_told()
    ensures { ChildrenAreTold }
{}
