// What the host takes at most.
ghost use Rattle.std.specs.Prelude.{◌≡◌};
ghost use Rattle.host_base.specs.LimitRanges.{AreInRange, IsDefault};

/// The limits of a site.
#[derive(Clone, Copy, Debug, PartialEq, Eq)]
pub struct Limits {
    /// Bytes of a request head up to and with its empty line: 1,024 to 65,536.
    pub head: u64,
    /// Bytes of a request target: 64 to 32,000.
    pub target: u64,
    /// Bytes of a request body: 0 to 16,777,216.
    pub body: u64,
    /// Bytes of a child's output: 8,192 to 16,777,216.
    pub output: u64,
    /// Ticks of 100 ms that a child may run: 1 to 864,000.
    pub run_ticks: u32,
    /// Ticks of 100 ms without a byte of the client: 1 to 36,000.
    pub idle_ticks: u32,
    /// Ticks of 100 ms that a child may live after the end of its output: 1 to 600.
    pub linger_ticks: u32,
    /// Local redirects of a request: 0 to 10.
    pub redirects: u32,
    /// Connections of a loop at a time: 1 to 1,024.
    pub connections: u32,
    /// Children of all loops at a time: 1 to 256.
    pub children: u32,
    /// Bytes of a WebSocket text and of a line of output: 1 to 1,048,576.
    pub ws_text: u64,
}

impl Default for Limits {
    ghost is_default = { IsDefault };

    fn default() -> Self
        ensures is_default { IsDefault result }
        ensures range { AreInRange result }
    {
        Limits {
            head: 16_384,
            target: 8_000,
            body: 1_048_576,
            output: 16_777_216,
            run_ticks: 300,
            idle_ticks: 150,
            linger_ticks: 20,
            redirects: 10,
            connections: 256,
            children: 64,
            ws_text: 65_536,
        }
    }
}
