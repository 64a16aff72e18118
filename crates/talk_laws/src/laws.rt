// Laws of a WebSocket's exchange. Each function is some laws, and does nothing.
ghost use Rattle.talk_laws.specs.Deals.{ChildActsDeal, ConnActsDeal, LossesDeal, LostActsDeal, LostEventsBegin, TalkActsDeal, TalkEventsBegin, TalkStartsDeal, TalksEndWell};
ghost use Rattle.talk_laws.specs.Form.{ChildActsComeInForm, GreetedComeOn, LostActsComeInForm, TalkActsComeInForm, TalkActsRise, WelcomesAreOrdered};
ghost use Rattle.talk_laws.specs.Http.{ActsKeepHttp, EventsKeepHttp, FirstSpeaksHttp, NextSpeaksHttp};
ghost use Rattle.talk_laws.specs.LostSteps.{LaterStepsAreGood, LossStepsAreGood};
ghost use Rattle.talk_laws.specs.Moves.{AsksMove, ChildActsMove, EventsKeepLost, EventsKeepTalks, LossesMove, LostActsMove, LostShutsMove, QuietEventsTakeNone, ShutsMove, TalkActsMove};
ghost use Rattle.talk_laws.specs.Rules.{GreetedGoOn, LossesKeepTalks, LostGreetingsKeepRules, RestsKeepTalks, SpokenKeepHttpRules, TalksSayDemands};
ghost use Rattle.talk_laws.specs.Steps.{TalkStepsAreGood};
ghost use Rattle.talk_laws.specs.TalkIs.{TalksStart};
ghost use Rattle.talk_laws.specs.Welcome.{AcceptedAreWelcomed, AcceptsAreWritten, HandshakesAreWelcome, ItemsLeaveGreeted, OpeningsStartRight, RedirectsAskNoWebSocket, UpgradesAreGiven};

/// A local redirect asks for no WebSocket.
pub fn redirects_ask_no_websocket()
    ensures { RedirectsAskNoWebSocket }
{}

/// What is known of a connection until it speaks WebSocket.
pub fn http_is_kept()
    ensures first { FirstSpeaksHttp }
    ensures events { EventsKeepHttp }
    ensures acts { ActsKeepHttp }
    ensures next { NextSpeaksHttp }
{}

/// A handshake that is accepted is answered with the accept text, the Upgrade and the Start, each the one that is due.
pub fn handshakes_are_welcome()
    ensures welcome { HandshakesAreWelcome }
    ensures welcomed { AcceptedAreWelcomed }
    ensures left { ItemsLeaveGreeted }
    ensures accept { AcceptsAreWritten }
    ensures upgrade { UpgradesAreGiven }
    ensures start { OpeningsStartRight }
{}

/// So a talk begins, and each event that fits keeps it.
pub fn items_keep_talks()
    ensures starts { TalksStart }
    ensures events { EventsKeepTalks }
    ensures quiet { QuietEventsTakeNone }
{}

/// The acts of the talk and of its child keep it, and so do the question to the client and the Shut.
pub fn acts_move_talks()
    ensures talk { TalkActsMove }
    ensures child { ChildActsMove }
    ensures asks { AsksMove }
    ensures shuts { ShutsMove }
{}

/// Where memory ran out what stands is a front of what the talk names, and stays so.
pub fn losses_move_talks()
    ensures lost { LossesMove }
    ensures acts { LostActsMove }
    ensures shuts { LostShutsMove }
    ensures events { EventsKeepLost }
{}

/// The exchange of a WebSocket goes on, and at a step's end the rules of the model hold of it.
pub fn rests_keep_rules()
    ensures goes_on { GreetedGoOn }
    ensures http { SpokenKeepHttpRules }
    ensures greetings { LostGreetingsKeepRules }
    ensures talks { RestsKeepTalks }
    ensures lost { LossesKeepTalks }
{}

/// When the client is to be asked for a text, and why the connection is to be shut.
pub fn talks_say_demands()
    ensures { TalksSayDemands }
{}

/// What the acts of a step do to the child is known from act to act.
pub fn children_are_dealt_with()
    ensures events { TalkEventsBegin }
    ensures lost_events { LostEventsBegin }
    ensures starts { TalkStartsDeal }
    ensures conn { ConnActsDeal }
    ensures talk { TalkActsDeal }
    ensures child { ChildActsDeal }
    ensures losses { LossesDeal }
    ensures lost { LostActsDeal }
{}

/// At the end of a step all rules on its children hold.
pub fn talks_end_well()
    ensures { TalksEndWell }
{}

/// The acts of a step come in form and in order.
pub fn acts_come_in_form()
    ensures on { GreetedComeOn }
    ensures welcome { WelcomesAreOrdered }
    ensures talk { TalkActsComeInForm }
    ensures child { ChildActsComeInForm }
    ensures lost { LostActsComeInForm }
    ensures order { TalkActsRise }
{}

/// Each step of a connection whose talk goes on or is over keeps all rules of its part, where memory is found.
pub fn talk_steps_are_good()
    ensures { TalkStepsAreGood }
{}

/// And so does a step for which memory runs out, and each later one.
pub fn lost_steps_are_good()
    ensures loss { LossStepsAreGood }
    ensures later { LaterStepsAreGood }
{}
