// TAKE: where a process goes from its place with memory's answer, in place; a function for each place. A kind that has no such place only counts the move.
// Each asks for `Room`, which a row has before a move and not after it, by its run's shape: no row could carry it; three ask for a sound shape, and a
// type that has it would ask it of all. Kinds are closed: a match, whose arms follow the figures, equal or not.
ghost use Rattle.std.specs.Prelude.{◌+◌, ◌≤◌, ◌<◌, ◌≡◌, false};
ghost use Rattle.terms.specs.Limits.{most_slots, top_tick};
ghost use Rattle.model.specs.Bounds.{Sound, Room};
ghost use Rattle.model.specs.Time.{wake_at};
ghost use Rattle.model.specs.declared.Place.{Place};
ghost use Rattle.model.specs.Routine.{SlotRule, slots_of, scan_at, scan_from};
ghost use Rattle.routine.specs.Taken.{turn, taken, Takes};

use kinds::Kind;
use model::{Local, Place, Row, Shape};
use terms::SlotNumber;

// The slots that a lock's process takes: when it leaves rest, when it finds its slot filled, when it loses its check.

fn leave(shape: Shape, local: &Local) -> SlotNumber
    ensures { result ≡ (slots_of SlotRule.Ring shape local.now).leave }
{
    local.slot
}

// The next slot round. A slot that there is takes no division.
fn filled(shape: Shape, local: &Local) -> SlotNumber
    requires sound { Sound shape }
    requires slot { local.now.slot.0 < most_slots }
    ensures { result ≡ (slots_of SlotRule.Ring shape local.now).filled }
{
    let next = local.slot.0 + 1;
    let inside = next < shape.size;
    if inside {
        return SlotNumber(next);
    }
    if next == shape.size {
        return SlotNumber(0);
    }
    SlotNumber(next % shape.size)
}

fn lost(shape: Shape, local: &Local) -> SlotNumber
    ensures { result ≡ (slots_of SlotRule.Ring shape local.now).lost }
{
    local.slot
}

// The scan goes on at value v, or ends past the last one.
fn scan_at(size: u32, v: u32, row: &mut Row)
    ensures { row.new ≡ turn (scan_at size v) row.old }
{
    if v <= size {
        row.local.place = Place::Scan;
        row.local.scan = v;
        return;
    }
    row.local.place = Place::Check; // fig. 8, line 3, none left
}

// From value v on, its own skipped.
fn scan_from(size: u32, v: u32, row: &mut Row)
    requires { v ≤ most_slots + 1 }
    ensures { row.new ≡ turn (scan_from size row.old.own v) row.old }
{
    if v == row.own {
        scan_at(size, v + 1, row);
        return;
    }
    scan_at(size, v, row);
}

pub fn rest(shape: Shape, row: &mut Row)
    requires { Room shape row.old }
    ensures { Takes shape Place.Rest 0 false row.old row.new }
{
    row.count(false);
    match shape.kind {
        Kind::Lock => {
            row.local.slot = leave(shape, &row.local); // fig. 3, the call
            row.local.place = Place::Look; // fig. 3, the call
        }
        Kind::Plain | Kind::Fast => {}
    }
}

// The register holds v.
pub fn look(shape: Shape, v: u32, row: &mut Row)
    requires sound { Sound shape }
    requires room { Room shape row.old }
    ensures { Takes shape Place.Look v false row.old row.new }
{
    row.count(false);
    if v == 0 {
        row.local.place = Place::Put; // fig. 3, line 2; fig. 7, line 1; fig. 8, line 2
        return;
    }
    match shape.kind {
        Kind::Lock => {
            row.local.slot = filled(shape, &row.local); // fig. 3, line 2
            row.local.place = Place::Look; // fig. 3, line 2
        }
        Kind::Plain => {
            row.local.place = Place::Wait; // fig. 7, line 1
        }
        Kind::Fast => {
            scan_from(shape.size, 1, row); // fig. 8, line 2
        }
    }
}

// The write was late, or done.
pub fn put(shape: Shape, late: bool, row: &mut Row)
    requires { Room shape row.old }
    ensures { Takes shape Place.Put 0 late row.old row.new }
{
    row.count(late);
    match shape.kind {
        Kind::Lock => {
            if late {
                row.local.place = Place::Check; // fig. 3, line 3
                return;
            }
            row.local.place = Place::Wait; // fig. 3, line 3
        }
        Kind::Plain => {
            row.local.place = Place::Look; // fig. 7, line 1
        }
        Kind::Fast => {
            row.local.place = Place::Look; // fig. 8, line 2
        }
    }
}

// The wait begins at `tick`.
pub fn wait(shape: Shape, tick: u32, row: &mut Row)
    requires sound { Sound shape }
    requires room { Room shape row.old }
    requires tick { tick ≤ top_tick }
    ensures { row.new ≡ taken shape Place.Wait (wake_at shape.delta tick) 0 false row.old }
{
    row.count(false);
    row.local.place = Place::Check; // fig. 3, line 3; fig. 7, line 2; fig. 8, line 3
    row.local.wake = tick + shape.delta + 1; // fig. 3, line 3; fig. 7, line 2; fig. 8, line 3
}

// The register holds v.
pub fn check(shape: Shape, v: u32, row: &mut Row)
    requires { Room shape row.old }
    ensures { Takes shape Place.Check v false row.old row.new }
{
    row.count(false);
    match shape.kind {
        Kind::Lock => {
            if v == row.own {
                row.local.place = Place::Critical; // fig. 3, line 4
                return;
            }
            row.local.slot = lost(shape, &row.local); // fig. 3, line 4
            row.local.place = Place::Look; // fig. 3, line 4
        }
        Kind::Plain => {
            row.local.place = Place::Decided; // fig. 7, line 3
            row.local.decided = v; // fig. 7, line 3
        }
        Kind::Fast => {
            row.local.place = Place::Decided; // fig. 8, line 4
            row.local.decided = v; // fig. 8, line 4
        }
    }
}

// The write that empties the slot was late, or done.
pub fn critical(shape: Shape, late: bool, row: &mut Row)
    requires { Room shape row.old }
    ensures { Takes shape Place.Critical 0 late row.old row.new }
{
    row.count(late);
    match shape.kind {
        Kind::Lock => {
            row.local.place = Place::Rest; // fig. 3, line 5
        }
        Kind::Plain | Kind::Fast => {}
    }
}

pub fn flag(shape: Shape, row: &mut Row)
    requires { Room shape row.old }
    ensures { Takes shape Place.Flag 0 false row.old row.new }
{
    row.count(false);
    match shape.kind {
        Kind::Lock | Kind::Plain => {}
        Kind::Fast => {
            row.local.place = Place::Look; // fig. 8, line 1
        }
    }
}

// The flag is v: 1 or 0.
pub fn scan(shape: Shape, v: u32, row: &mut Row)
    requires { Room shape row.old }
    ensures { Takes shape Place.Scan v false row.old row.new }
{
    row.count(false);
    match shape.kind {
        Kind::Lock | Kind::Plain => {}
        Kind::Fast => {
            if v == 0 {
                let next = row.local.scan + 1;
                scan_from(shape.size, next, row); // fig. 8, line 3
                return;
            }
            row.local.place = Place::Wait; // fig. 8, line 3
        }
    }
}

// A process that has decided stays where it is.
pub fn decided(shape: Shape, row: &mut Row)
    requires { Room shape row.old }
    ensures { Takes shape Place.Decided 0 false row.old row.new }
{
    row.count(false); // and no write
}
