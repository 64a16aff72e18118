// Why a request is answered by the host itself.
ghost use Rattle.std.specs.Prelude.{◌≡◌};

/// The causes of the host's own replies. Each has a status code and a text.
#[derive(Clone, Copy, Debug, PartialEq, Eq)]
pub enum Cause {
    /// The head is none of the grammar (RFC 9112 2 to 5).
    BadHead,
    /// The client ended its input within a request.
    Incomplete,
    /// The request target is of no form that is served (RFC 9112 3.2).
    BadTarget,
    /// The Host field is missing, repeated or no authority (RFC 9112 3.2).
    BadHost,
    /// The length of the body can't be told (RFC 9112 6.3).
    BadFraming,
    /// The chunked body is none (RFC 9112 7.1).
    BadChunk,
    /// The path has a broken escape or is not UTF-8.
    BadPath,
    /// The key or the framing is none of a handshake (RFC 6455 4.2.1).
    BadHandshake,
    /// The bytes are no request of SCGI.
    BadScgi,
    /// The variables that a web server sent are no list of pairs, or name no path.
    BadParams,
    /// The bytes are no record of FastCGI.
    BadRecord,
    /// The script takes no such origin (RFC 6455 4.2.2).
    OriginRefused,
    /// No script stands at the path.
    NoScript,
    /// The request took longer than the idle time.
    IdleTime,
    /// The body is longer than the limit.
    BodyTooLong,
    /// The request target is longer than the limit.
    TargetTooLong,
    /// The expectation is none that can be met (RFC 9110 10.1.1).
    BadExpect,
    /// No host of the site has the name that the request asks for (RFC 9110 15.5.20).
    UnknownHost,
    /// The request asks for no WebSocket of version 13 (RFC 6455 4.2.2).
    UpgradeNeeded,
    /// The head is longer than the limit.
    HeadTooLong,
    /// The head has more than 100 field lines.
    TooManyFields,
    /// The local redirects of a request passed their limit (RFC 3875 6.2.2).
    RedirectLoop,
    /// The method CONNECT or the target `*`.
    NotServed,
    /// A transfer coding other than chunked (RFC 9112 6.1).
    CodingUnknown,
    /// The script's program could not be started.
    StartFailed,
    /// Reading the script's output failed.
    OutputBroken,
    /// The script's output passed its limit.
    OutputTooLarge,
    /// The script gave no output.
    NoOutput,
    /// The output ended within the script header (RFC 3875 6.3).
    HeaderIncomplete,
    /// The script header is longer than 8,192 bytes.
    HeaderTooLarge,
    /// A line of the script header is no field (RFC 3875 6.3).
    HeaderLine,
    /// A Content-Type, Location or Status stands twice (RFC 3875 6.3).
    HeaderRepeated,
    /// The value of Status is none (RFC 3875 6.3.3).
    BadStatus,
    /// The value of Location is none (RFC 3875 6.3.2).
    BadLocation,
    /// The script header has no Content-Type, Location or Status (RFC 3875 6.3).
    NoneOfThree,
    /// As many children run as may; `seen` of them were counted.
    Full { seen: u32 },
    /// The script ran longer than its time.
    RunTime,
}

impl Cause {
    ghost use Rattle.host_base.specs.CauseText.{status_of, text_of};

    /// The status code (RFC 9110 15).
    pub fn status(&self) -> u16
        ensures { result ≡ status_of self.now }
    {
        match self {
            Cause::BadHead
            | Cause::Incomplete
            | Cause::BadTarget
            | Cause::BadHost
            | Cause::BadFraming
            | Cause::BadChunk
            | Cause::BadPath
            | Cause::BadHandshake
            | Cause::BadScgi
            | Cause::BadParams
            | Cause::BadRecord => 400,
            Cause::OriginRefused => 403,
            Cause::NoScript => 404,
            Cause::IdleTime => 408,
            Cause::BodyTooLong => 413,
            Cause::TargetTooLong => 414,
            Cause::BadExpect => 417,
            Cause::UnknownHost => 421,
            Cause::UpgradeNeeded => 426,
            Cause::HeadTooLong | Cause::TooManyFields => 431,
            Cause::RedirectLoop => 500,
            Cause::NotServed | Cause::CodingUnknown => 501,
            Cause::StartFailed
            | Cause::OutputBroken
            | Cause::OutputTooLarge
            | Cause::NoOutput
            | Cause::HeaderIncomplete
            | Cause::HeaderTooLarge
            | Cause::HeaderLine
            | Cause::HeaderRepeated
            | Cause::BadStatus
            | Cause::BadLocation
            | Cause::NoneOfThree => 502,
            Cause::Full { .. } => 503,
            Cause::RunTime => 504,
        }
    }

    /// What the body of the reply says, without its line end. For `Full` the number of children follows.
    pub fn text(&self) -> &'static str
        ensures { result.now ≡ text_of self.now }
    {
        match self {
            Cause::BadHead => "bad request head",
            Cause::Incomplete => "request ended early",
            Cause::BadTarget => "bad target",
            Cause::BadHost => "bad host",
            Cause::BadFraming => "bad body framing",
            Cause::BadChunk => "bad chunk",
            Cause::BadPath => "bad path",
            Cause::BadHandshake => "bad websocket handshake",
            Cause::BadScgi => "bad scgi request",
            Cause::BadParams => "bad parameters",
            Cause::BadRecord => "bad record",
            Cause::OriginRefused => "origin refused",
            Cause::NoScript => "no script for this path",
            Cause::IdleTime => "request took too long",
            Cause::BodyTooLong => "request body too large",
            Cause::TargetTooLong => "target too long",
            Cause::BadExpect => "expectation not met",
            Cause::UnknownHost => "host not served",
            Cause::UpgradeNeeded => "websocket version 13 required",
            Cause::HeadTooLong => "request head too large",
            Cause::TooManyFields => "too many header fields",
            Cause::RedirectLoop => "too many local redirects",
            Cause::NotServed => "method or target not served",
            Cause::CodingUnknown => "transfer coding not served",
            Cause::StartFailed => "script could not be started",
            Cause::OutputBroken => "script output broken",
            Cause::OutputTooLarge => "script output too large",
            Cause::NoOutput => "script gave no output",
            Cause::HeaderIncomplete => "script header incomplete",
            Cause::HeaderTooLarge => "script header too large",
            Cause::HeaderLine => "script header line refused",
            Cause::HeaderRepeated => "script header field repeated",
            Cause::BadStatus => "script status refused",
            Cause::BadLocation => "script location refused",
            Cause::NoneOfThree => "script sent no type, status or location",
            Cause::Full { .. } => "children running: ",
            Cause::RunTime => "script took too long",
        }
    }
}
