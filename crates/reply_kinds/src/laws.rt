// Laws of what outputs derive. Each function is one law, and does nothing.
ghost use Rattle.reply_kinds.specs.DerivedRules.{BegunGoesOn, HeadersComeFirst, OthersStay, RepliesAreFit};

/// A reply can begin before its output has ended: whatever follows changes nothing of its status, phrase
/// and fields, and its body goes on.
pub fn begun_replies_go_on()
    ensures begun { BegunGoesOn }
    ensures first { HeadersComeFirst }
{}

/// A redirect without a document, a local redirect and a refusal are known once the header is, and stay.
pub fn others_stay()
    ensures { OthersStay }
{}

/// What a script sends can't break the head of its reply, nor say where the reply ends: reply_writer's laws
/// on what a client reads back hold of it.
pub fn replies_are_fit()
    ensures { RepliesAreFit }
{}
