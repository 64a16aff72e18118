// What the types of an item's values say of them: numbers of so many bits, bytes, and texts in UTF-8. The functions here
// do nothing.
ghost use Rattle.std.specs.Prelude.{◌<◌, ◌^◌, All, length};
ghost use Rattle.trace_text.specs.Items.{AreBytes, ArePairs, AreTexts, IsAct, IsCause, IsEvent, IsItem, IsLaunch, IsPair, IsText, IsWhy};

use host_base::{Cause, Launch, Pair, Pairs, Text, Texts};
use host_trace::{Act, Event, Item, Why};

fn bytes_are_known(bytes: &[u8])
    ensures { AreBytes bytes.now }
{
    for byte in bytes {
        let _value = *byte;
    }
}

fn str_is_known(text: &str)
    ensures { IsText text.now }
{
    bytes_are_known(text.as_bytes());
}

fn text_is_known(text: &Text)
    ensures { IsText text.now }
{
    str_is_known(text.as_str());
}

fn all_texts(list: &[Text])
    ensures { All IsText list.now }
{
    for text in list {
        text_is_known(text);
    }
}

fn texts_are_known(list: &Texts)
    ensures { AreTexts list.now }
{
    let _count = list.len();
    all_texts(list.as_slice());
}

fn pair_is_known(pair: &Pair)
    ensures { IsPair pair.now }
{
    text_is_known(&pair.name);
    text_is_known(&pair.value);
}

fn all_pairs(list: &[Pair])
    ensures { All IsPair list.now }
{
    for pair in list {
        pair_is_known(pair);
    }
}

fn pairs_are_known(list: &Pairs)
    ensures { ArePairs list.now }
{
    let _count = list.len();
    all_pairs(list.as_slice());
}

fn launch_is_known(launch: &Launch)
    ensures { IsLaunch launch.now }
{
    text_is_known(&launch.program);
    text_is_known(&launch.dir);
    texts_are_known(&launch.args);
    pairs_are_known(&launch.env);
}

fn cause_is_known(cause: Cause)
    ensures { IsCause cause }
{
    if let Cause::Full { seen } = cause {
        let _seen = seen;
    }
}

fn why_is_known(why: Why)
    ensures { IsWhy why }
{
    if let Why::Cut(cause) = why {
        cause_is_known(cause);
    }
}

fn number_is_known(number: u64)
    ensures { number < 2 ^ 64 }
{
    let _number = number;
}

fn sized_is_known(number: u64, bytes: &[u8])
    ensures { (number < 2 ^ 64) × AreBytes bytes.now }
{
    bytes_are_known(bytes);
}

fn two_are_known(one: u64, two: u64)
    ensures { (one < 2 ^ 64) × (two < 2 ^ 64) }
{
    let _sum = one | two;
}

fn full_is_known(number: u64, seen: u32)
    ensures { (number < 2 ^ 64) × (seen < 2 ^ 32) }
{
    let _both = (number, seen);
}

fn event_is_known(event: &Event)
    ensures { IsEvent event.now }
{
    match event {
        Event::Accepted { peer } => text_is_known(&peer.0),
        Event::ClientBytes { c, bytes } => sized_is_known(*c, bytes.as_slice()),
        Event::WsText { c, bytes } => sized_is_known(*c, bytes.as_slice()),
        Event::ChildBytes { k, bytes } => sized_is_known(*k, bytes.as_slice()),
        Event::Wrote { c, n } => two_are_known(*c, *n),
        Event::Took { k, n } => two_are_known(*k, *n),
        Event::StartFull { k, seen } => full_is_known(*k, *seen),
        Event::Tick { secs } => number_is_known(*secs),
        Event::Stop => {}
        Event::ClientEof { c } => number_is_known(*c),
        Event::ClientGone { c } => number_is_known(*c),
        Event::WsBinary { c } => number_is_known(*c),
        Event::WsClosed { c } => number_is_known(*c),
        Event::WsBad { c } => number_is_known(*c),
        Event::NoRoom { c } => number_is_known(*c),
        Event::Started { k } => number_is_known(*k),
        Event::StartFailed { k } => number_is_known(*k),
        Event::ChildEof { k } => number_is_known(*k),
        Event::ChildBroken { k } => number_is_known(*k),
        Event::InputGone { k } => number_is_known(*k),
        Event::Exited { k } => number_is_known(*k),
    }
}

fn start_is_known(k: u64, c: u64, j: u128, hop: u32, launch: &Launch)
    ensures { (k < 2 ^ 64) × (c < 2 ^ 64) × (j < 2 ^ 128) × (hop < 2 ^ 32) × IsLaunch launch.now }
{
    launch_is_known(launch);
}

fn shut_is_known(c: u64, why: Why)
    ensures { (c < 2 ^ 64) × IsWhy why }
{
    why_is_known(why);
}

fn says_is_known(c: u64, list: &Texts)
    ensures { (c < 2 ^ 64) × AreTexts list.now }
{
    texts_are_known(list);
}

fn close_is_known(c: u64, code: u16)
    ensures { (c < 2 ^ 64) × (code < 2 ^ 16) }
{
    let _both = (c, code);
}

fn act_is_known(act: &Act)
    ensures { IsAct act.now }
{
    match act {
        Act::Start {
            k,
            c,
            j,
            hop,
            launch,
        } => start_is_known(*k, *c, *j, *hop, launch),
        Act::Shut { c, why } => shut_is_known(*c, *why),
        Act::Says { c, texts } => says_is_known(*c, texts),
        Act::CloseWs { c, code } => close_is_known(*c, *code),
        Act::Write { c, bytes } => sized_is_known(*c, bytes.as_slice()),
        Act::Feed { k, bytes } => sized_is_known(*k, bytes.as_slice()),
        Act::Upgrade { c, rest } => sized_is_known(*c, rest.as_slice()),
        Act::WantClient { c } => number_is_known(*c),
        Act::EndInput { k } => number_is_known(*k),
        Act::WantChild { k } => number_is_known(*k),
        Act::Kill { k } => number_is_known(*k),
        Act::Release { k } => number_is_known(*k),
    }
}

fn item_is_known(item: &Item)
    ensures { IsItem item.now }
{
    match item {
        Item::In(event) => event_is_known(event),
        Item::Out(act) => act_is_known(act),
    }
}

pub fn items_are_known(items: &[Item])
    ensures { All IsItem items.now }
{
    for item in items {
        item_is_known(item);
    }
}
