// Whom an event names.
ghost use Rattle.std.specs.Prelude.{◌≡◌};
ghost use Rattle.host_trace.specs.declared.items.Item.TheVariants.{In};
ghost use Rattle.host_core.specs.Names.{named_by};

use host_trace::Event;

/// Whom an event names.
#[derive(Clone, Copy, Debug, PartialEq, Eq)]
pub enum Named {
    Connection(u64),
    Child(u64),
    /// It is of all connections, or of a new one.
    Nobody,
}

pub(crate) fn named_of(ev: &Event) -> Named
    ensures { result ≡ named_by (In ev.now) }
{
    match ev {
        Event::ClientBytes { c, .. }
        | Event::ClientEof { c }
        | Event::ClientGone { c }
        | Event::Wrote { c, .. }
        | Event::WsText { c, .. }
        | Event::WsBinary { c }
        | Event::WsClosed { c }
        | Event::WsBad { c }
        | Event::NoRoom { c } => Named::Connection(*c),
        Event::Started { k }
        | Event::StartFailed { k }
        | Event::StartFull { k, .. }
        | Event::ChildBytes { k, .. }
        | Event::ChildEof { k }
        | Event::ChildBroken { k }
        | Event::Took { k, .. }
        | Event::InputGone { k }
        | Event::Exited { k } => Named::Child(*k),
        Event::Accepted { .. } | Event::Tick { .. } | Event::Stop => Named::Nobody,
    }
}
