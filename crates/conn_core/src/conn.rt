// A connection of this server.
ghost use Rattle.conn_phase.specs.Phase.{may_step};
ghost use Rattle.conn_phase.proofs.PropLaws.{may_step_prop};

use conn_phase::Phase;

/// One connection of a site, as the core of all connections holds it.
#[derive(Drop)]
pub struct Conn<'s> {
    pub(crate) conn: Phase<'s>,
    ghost talks: { may_step conn } by { may_step_prop conn },
}
