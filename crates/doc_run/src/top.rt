// The top call over a world that answers documents.
ghost use Rattle.std.specs.Prelude.{◌≡◌, ◌↔◌, [], None, Some, false, map};
ghost use Rattle.host_base.specs.Outsides.{Rose};
ghost use Rattle.host_run.specs.Entered.{EntersAt};
ghost use Rattle.host_run.specs.Explains.{ExplainsAt};
ghost use Rattle.host_run.specs.Given.{GivesAt};
ghost use Rattle.host_run.specs.Statuses.{InOrder, ReportsBy, SitesBy, enters_world, reads_store, writes_report};
ghost use Rattle.host_run.specs.Words.{form_of};
ghost use Rattle.doc_files.specs.Both.{given_by};
ghost use Rattle.doc_world.specs.Given.{ServesEach, items_of};
ghost use Rattle.doc_run.specs.Documents.{ServesSite};

use doc_files::DocStore;
use doc_world::DocWorld;
use host_base::{Sink, SiteStore};
use host_run::{Status, run};
use host_trace::World;
use std::alloc::Global;
use std::thread::Threads;

/// Runs the host by the words that follow the program's name, over a world that answers documents: all that `run`
/// promises, and of each trace that comes back, that every child that was started for a document hands up the output of
/// that document, in order and once.
pub fn run_docs<R: Threads + Sync, F: SiteStore, S: Sink, W: World, D: DocStore + Send>(
    rt: &R,
    alloc: Global,
    words: &[String],
    store: &mut F,
    report: &mut S,
    world: &mut DocWorld<W, D>,
) -> Status
    ensures usage { (result ≡ Status.Usage) ↔ (form_of words.now ≡ None) }
    ensures site { SitesBy (F.stored store.old) (form_of words.now) result }
    ensures gives { GivesAt (F.stored store.old) (form_of words.now) result (given_by world.old.tells (map items_of world.old.given.items) (W.given world.old.world)) (given_by world.new.tells (map items_of world.new.given.items) (W.given world.new.world)) }
    ensures entered { EntersAt (F.stored store.old) (form_of words.now) result (Some world.old.entries) (Some world.new.entries) }
    ensures out { W.out world.new.world ≡ W.out world.old.world }
    ensures report { ReportsBy (F.stored store.old) (form_of words.now) result (S.written report.old) (S.written report.new) }
    ensures explains { ExplainsAt (F.stored store.old) (form_of words.now) result (given_by world.old.tells (map items_of world.old.given.items) (W.given world.old.world)) (given_by world.new.tells (map items_of world.new.given.items) (W.given world.new.world)) (S.written report.old) (S.written report.new) }
    ensures unread { result ≡ Status.SiteUnread → Rose (F.faults store.old) (F.faults store.new) }
    ensures failed { result ≡ Status.WorldRefused → Rose (W.faults world.old.world) (W.faults world.new.world) }
    ensures fault { result ≡ Status.ReportFault → Rose (S.faults report.old) (S.faults report.new) }
    ensures order { InOrder result store.old store.new world.old world.new report.old report.new }
    ensures no_store { reads_store (form_of words.now) ≡ false → store.new ≡ store.old }
    ensures no_world { enters_world (form_of words.now) ≡ false → world.new ≡ world.old }
    ensures no_report { writes_report (form_of words.now) ≡ false → report.new ≡ report.old }

    // Of each trace that came back, now or before, for the folders of the site that the world was entered for.
    ensures documents { ServesEach (D.held world.new.docs) world.new.entries world.new.given.items (given_by world.new.tells (map items_of world.new.given.items) (W.given world.new.world)) }

    // .. which is the site that is said at the place, where the world was not entered before.
    ensures served { world.old.entries ≡ [] → ServesSite (F.stored store.old) (form_of words.now) (D.held world.new.docs) (given_by world.new.tells (map items_of world.new.given.items) (W.given world.new.world)) }
{
    run(rt, alloc, words, store, report, world)
}
