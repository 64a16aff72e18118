// Laws of streams. Each function is one law, and does nothing.
ghost use Rattle.reply_stream.specs.HearingRules.{BeginningsStay, TicksCount};
ghost use Rattle.reply_stream.specs.StageRules.{BeginningsAreWritten, StandingsHold};

/// What had to begin still has to, whatever is told afterwards; and a tick counts where the header was whole
/// before it.
pub fn beginnings_stay()
    ensures stay { BeginningsStay }
    ensures ticks { TicksCount }
{}

/// A stream has begun its reply exactly where it must have, and has written the reply that the output so far
/// gives, cut off after all of its body. Of a reply that has begun, a byte is written.
pub fn standings_hold()
    ensures hold { StandingsHold }
    ensures written { BeginningsAreWritten }
{}
