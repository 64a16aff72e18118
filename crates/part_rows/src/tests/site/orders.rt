// Files with two faults say the first by the order of the format.
use super::super::tables::{push, shown};
use super::lines::said;
use host_base::NoMemory;
use std::alloc::Global;
use std::process::Abort;
use std::test::Fail;

// A place in a file: what stands before it, what stands there without a fault and with one, and how the fault is said.
type Place = (&'static str, &'static str, &'static str, &'static str);

// The file with a fault at two places.
fn file_with(
    alloc: Global,
    places: &[Place],
    one: usize,
    other: usize,
) -> Result<Vec<u8>, NoMemory> {
    let mut text = Vec::new(alloc);
    for (index, place) in places.iter().enumerate() {
        push_place(&mut text, place, index == one || index == other)?;
    }
    Ok(text)
}

fn push_place(text: &mut Vec<u8>, place: &Place, faulty: bool) -> Result<(), NoMemory> {
    push(text, place.0.as_bytes())?;
    push(text, if faulty { place.2 } else { place.1 }.as_bytes())
}

fn said_with(
    alloc: Global,
    places: &[Place],
    one: usize,
    other: usize,
) -> Result<Vec<u8>, NoMemory> {
    let text = file_with(alloc, places, one, other)?;
    said(alloc, text.as_slice())
}

// The file with a fault at two places says this.
fn says<R: Abort>(
    rt: &R,
    alloc: Global,
    places: &[Place],
    (one, other): (usize, usize),
    want: &str,
) -> Result<(), NoMemory> {
    let given = said_with(alloc, places, one, other)?;
    assert_eq!(rt; shown(given.as_slice()), want, "{other}");
    Ok(())
}

// A fault is said alone, and before each that stands behind it.
fn is_said_first<R: Abort>(
    rt: &R,
    alloc: Global,
    places: &[Place],
    one: usize,
    want: &str,
) -> Result<(), NoMemory> {
    for other in one..places.len() {
        says(rt, alloc, places, (one, other), want)?;
    }
    Ok(())
}

// The file without a fault says that it is right.
fn are_said_in_order<R: Abort + AllocGlobal>(rt: &R, places: &[Place]) -> Result<(), Fail> {
    let alloc = rt.alloc();
    says(rt, alloc, places, (places.len(), places.len()), "ok")?;
    for (one, place) in places.iter().enumerate() {
        is_said_first(rt, alloc, places, one, place.3)?;
    }
    Ok(())
}

static FIRST: [Place; 8] = [
    ("version = ", "1", "0", "out of range version"),
    ("\nname = ", r#""a""#, r#""""#, "out of range name"),
    ("\nlisten = ", r#""1.2.3.4""#, "1", "wrong kind listen"),
    ("\nport = ", "80", "0", "out of range port"),
    ("\nroot = ", r#""/a""#, r#""/""#, "out of range root"),
    ("\nlimits.head = ", "1024", "0", "out of range limits.head"),
    (
        "\n[[script]]\nprogram = \"/p\"\n",
        r#"path = "/s""#,
        "",
        "missing script[0].path",
    ),
    (
        "\n[[script]]\npath = \"/t\"\n",
        r#"program = "/p""#,
        "",
        "missing script[1].program",
    ),
];

static SECOND: [Place; 29] = [
    ("version = ", "2", "true", "wrong kind version"),
    (
        "\nlisten = ",
        r#""1.2.3.4""#,
        r#""""#,
        "out of range listen",
    ),
    ("\nport = ", "80", "[]", "wrong kind port"),
    (
        "\n[limits]\nhead = ",
        "1024",
        "0",
        "out of range limits.head",
    ),
    ("\ntarget = ", "64", "0", "out of range limits.target"),
    ("\nbody = ", "0", "-1", "out of range limits.body"),
    ("\noutput = ", "8192", "0", "out of range limits.output"),
    ("\nrun_ticks = ", "1", "0", "out of range limits.run_ticks"),
    (
        "\nidle_ticks = ",
        "1",
        "0",
        "out of range limits.idle_ticks",
    ),
    (
        "\nlinger_ticks = ",
        "1",
        "0",
        "out of range limits.linger_ticks",
    ),
    ("\nredirects = ", "0", "11", "out of range limits.redirects"),
    (
        "\nconnections = ",
        "1",
        "0",
        "out of range limits.connections",
    ),
    ("\nchildren = ", "1", "0", "out of range limits.children"),
    ("\nws_text = ", "1", "0", "out of range limits.ws_text"),
    ("\n[[host]]\n", r#"name = "a""#, "", "missing host[0].name"),
    (
        "\naliases = ",
        "[]",
        r#"[""]"#,
        "out of range host[0].aliases",
    ),
    ("\nany = ", "true", "1", "wrong kind host[0].any"),
    (
        "\nroot = ",
        r#""/a""#,
        r#""/""#,
        "out of range host[0].root",
    ),
    (
        "\n[[host.script]]\npath = ",
        r#""/s""#,
        r#""""#,
        "out of range host[0].script[0].path",
    ),
    (
        "\nprogram = ",
        r#""/p""#,
        r#""p""#,
        "out of range host[0].script[0].program",
    ),
    (
        "\nkind = ",
        r#""websocket""#,
        r#""fast""#,
        "out of range host[0].script[0].kind",
    ),
    (
        "\norigins = ",
        "[]",
        "{}",
        "wrong kind host[0].script[0].origins",
    ),
    (
        "\n[[host.script]]\nprogram = \"/p\"\npath = ",
        r#""/t""#,
        "1",
        "wrong kind host[0].script[1].path",
    ),
    (
        "\n[[host.documents]]\npath = ",
        r#""/d""#,
        r#""d""#,
        "out of range host[0].documents[0].path",
    ),
    (
        "\nroot = ",
        r#""/a""#,
        r#""a""#,
        "out of range host[0].documents[0].root",
    ),
    (
        "\ntypes.a = ",
        r#""b""#,
        r#""""#,
        "out of range host[0].documents[0].types.a",
    ),
    (
        "\n[[host.documents]]\npath = ",
        r#""/e""#,
        r#""""#,
        "out of range host[0].documents[1].path",
    ),
    (
        "\n[[host]]\nname = ",
        r#""b""#,
        r#""""#,
        "out of range host[1].name",
    ),
    (
        "\n[[host.script]]\nprogram = \"/p\"\npath = ",
        r#""/s""#,
        r#""""#,
        "out of range host[1].script[0].path",
    ),
];

#[test]
fn the_first_key_with_a_fault_is_said(rt: HostRuntime) -> Result<(), Fail> {
    are_said_in_order(&rt, &FIRST)?;
    are_said_in_order(&rt, &SECOND)
}

// Unknown keys of each table, then what stands twice.
static BEHIND: [Place; 12] = [
    ("version = 2\n", "", "x = 1\n", "unknown x"),
    ("[limits]\n", "", "x = 1\n", "unknown limits.x"),
    (
        "[[host]]\nname = \"a\"\nany = true\n",
        "",
        "x = 1\n",
        "unknown host[0].x",
    ),
    (
        "[[host.script]]\npath = \"/s\"\nprogram = \"/p\"\n",
        "",
        "x = 1\n",
        "unknown host[0].script[0].x",
    ),
    (
        "[[host.script]]\npath = \"/t\"\nprogram = \"/p\"\nkind = \"websocket\"\n",
        "",
        "x = 1\n",
        "unknown host[0].script[1].x",
    ),
    (
        "[[host.documents]]\npath = \"/d\"\n",
        "",
        "x = 1\n",
        "unknown host[0].documents[0].x",
    ),
    (
        "[[host.documents]]\npath = \"/e\"\n",
        "",
        "x = 1\n",
        "unknown host[0].documents[1].x",
    ),
    (
        "[[host]]\nname = \"b\"\n",
        "",
        "x = 1\n",
        "unknown host[1].x",
    ),
    (
        "[[host.documents]]\npath = \"/d\"\n",
        "",
        "x = 1\n",
        "unknown host[1].documents[0].x",
    ),
    ("[[host]]\nname = ", "\"c\"\n", "\"B\"\n", "double host B"),
    ("any = ", "false\n", "true\n", "double host c"),
    (
        "[[host.script]]\npath = \"/s\"\nprogram = \"/p\"\n[[host.script]]\nprogram = \"/p\"\npath = ",
        "\"/t\"\n",
        "\"/s\"\n",
        "double script /s",
    ),
];

#[test]
fn unknown_keys_and_doubles_come_after(rt: HostRuntime) -> Result<(), Fail> {
    are_said_in_order(&rt, &BEHIND)
}
