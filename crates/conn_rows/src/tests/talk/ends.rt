// How a talk ends by its child, or by what is too long.
use super::super::Mode;
use super::rows_go;
use std::test::Fail;

const ROWS: &str = r"
== the output ends without a rest, and the child lingers
Started 5
    WantChild
    WantClient
Out 5 x\n
    Says <x>
    WantChild
OutEnd 5
    CloseWs 1000
    EndInput
    Shut Done
Ticks 19
Ticks 1
    Kill
Ticks 100
Exited 5
== the output ends with a rest of CR alone
Started 5
    WantChild
    WantClient
Out 5 x\n\r
    Says <x>
    WantChild
OutEnd 5
    Says <>
    CloseWs 1000
    EndInput
    Shut Done
== the output ends at once
Started 5
    WantChild
    WantClient
OutEnd 5
    CloseWs 1000
    EndInput
    Shut Done
Exited 5
Ticks 30
== reading the output failed, and the rest is not said
Started 5
    WantChild
    WantClient
Out 5 x\ny
    Says <x>
    WantChild
OutBroken 5
    CloseWs 1011
    EndInput
    Kill
    Shut Done
Exited 5
== it could not be started
StartFailed 5
    CloseWs 1011
    Shut Done
Ticks 30
== too many children run
StartFull 5 64
    CloseWs 1011
    Shut Done
Ticks 30
== output of 65,537 bytes without LF
Started 5
    WantChild
    WantClient
OutFill 5 65536
    WantChild
OutFill 5 1
    CloseWs 1011
    EndInput
    Kill
    Shut Done
Exited 5
    Release
== an LF that comes too late
Limit 8
Started 5
    WantChild
    WantClient
Out 5 12345678
    WantChild
Out 5 \r\n
    CloseWs 1011
    EndInput
    Kill
    Shut Done
Out 5 a\n
Exited 5
    Release
== a line as long as it may be, and one byte more behind two lines
Limit 8
Started 5
    WantChild
    WantClient
Out 5 12345678\n
    Says <12345678>
    WantChild
Out 5 a\n\n123456789\nb\n
    Says <a><>
    CloseWs 1011
    EndInput
    Kill
    Shut Done
Exited 5
    Release
== a text of one byte more than may be
Started 5
    WantChild
    WantClient
MessageFill 0 65537
    CloseWs 1009
    EndInput
    Kill
    Shut Done
Exited 5
    Release
== a short limit, and a text of one byte more behind one that is as long as it may be
Limit 3
Started 5
    WantChild
    WantClient
Message 0 abc
    Feed <abc\n>
Took 5 4
    WantClient
Message 0 abcd
    CloseWs 1009
    EndInput
    Kill
    Shut Done
Exited 5
    Release
== a text that is too long for a child that has exited
Limit 3
Started 5
    WantChild
    WantClient
Exited 5
Message 0 abcd
    CloseWs 1009
    EndInput
    Release
    Shut Done
";

pub fn rows() -> &'static str {
    ROWS
}

#[test]
fn a_talk_ends_with_its_child(rt: HostRuntime) -> Result<(), Fail> {
    rows_go(&rt, rt.alloc(), rows(), Mode::Whole, 12)
}
