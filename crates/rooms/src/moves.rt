// What an event of one connection makes of the rows of all members.
ghost use Rattle.std.specs.Prelude.{◌≡◌, ◌<◌, ℕ, List, Option, length, None, IfOk, IsOk, OnOk, OnErr, option_map};
ghost use Rattle.std.specs.Option.{option_copied};
ghost use Rattle.model_h1.specs.Frame.{Message as Said};
ghost use Rattle.h1_connection.specs.declared.event.Event.TheVariants as event;
ghost use Rattle.ws_frames.specs.Sent.{message_says};
ghost use Rattle.model_rooms.specs.Member.{member_at, rows_from};
ghost use Rattle.rooms.specs.Rows.{only};
ghost use Rattle.rooms.specs.Turn.{first_message, asked_by, IsAsked, sent_outcome};
ghost use Rattle.rooms.specs.Moves.{in_room, with_done, moved, ended, closes_by, followed, Takes, Sends};

use crate::{HubTurn, Rooms, Seat};
use h1_connection::{Event, Message, NoMemory, Outcome, Sent};

/// A turn of the connection with this number. There is none where it is over.
pub fn take_turn(
    seat: &mut Seat,
    rooms: &mut Rooms,
    number: usize,
) -> Result<Option<HubTurn>, NoMemory>
    requires known { number < length rooms.old }
    ensures taken { IfOk result (λ turn. Takes seat.old rooms.old number turn seat.new rooms.new) }
    ensures no_memory_needed { IsAsked seat.old.connection (asked_by seat.old (first_message (member_at number rooms.old).waiting)) None → IsOk result }
    ensures settings { seat.new.connection.settings ≡ seat.old.connection.settings }
{
    let Some(turn) = seat.turn(front(rooms, number))? else {
        return Ok(None);
    };
    follow(rooms, seat, number, &turn.event, &turn.outcome)?;
    Ok(Some(turn))
}

/// A turn of the connection with this number that sends the message that waits first. There is none where no message waits,
/// or where none may be sent.
pub fn send_first(
    seat: &mut Seat,
    rooms: &mut Rooms,
    number: usize,
) -> Result<Option<Sent>, NoMemory>
    requires known { number < length rooms.old }
    ensures sent { IfOk result (λ sent. Sends seat.old rooms.old number sent seat.new rooms.new) }
    ensures settings { seat.new.connection.settings ≡ seat.old.connection.settings }
    ensures err { OnErr result ((seat.new ≡ seat.old) × (rooms.new ≡ rooms.old)) }
{
    let Some(message) = front(rooms, number) else {
        return Ok(None);
    };
    let Some(sent) = seat.send_front(message)? else {
        return Ok(None);
    };
    follow_sent(rooms, seat, number, sent);
    Ok(Some(sent))
}

// Follows a message that was sent, or refused.
fn follow_sent(rooms: &mut Rooms, seat: &Seat, number: usize, sent: Sent)
    requires known { number < length rooms.old }
    ensures { (m : Said) → rooms.new ≡ followed (event.Send m) (sent_outcome sent) seat.now number rooms.old }
{
    take_off(rooms, number, sent);
    follow_end(rooms, seat, number);
}

// What was sent waits no more.
fn take_off(rooms: &mut Rooms, number: usize, sent: Sent)
    requires known { number < length rooms.old }
    ensures moved { (m : Said) (room : Option (List ℕ)) → rooms.new ≡ moved (event.Send m) (sent_outcome sent) room number rooms.old }
    ensures count { length rooms.new ≡ length rooms.old }
{
    match sent {
        Sent::Done => rooms.sent(number),
        Sent::Protocol(_) => {}
    }
}

// The message that waits first.
fn front(rooms: &Rooms, number: usize) -> Option<&Message>
    requires known { number < length rooms.now }
    ensures { option_map message_says (option_copied result) ≡ first_message (member_at number rooms.now).waiting }
{
    let line = rooms.front(number)?;
    Some(line.message())
}

/// Follows an event that a connection had, and what it answered.
pub fn follow(
    rooms: &mut Rooms,
    seat: &Seat,
    number: usize,
    event: &Event,
    outcome: &Outcome,
) -> Result<(), NoMemory>
    requires known { number < length rooms.old }
    ensures { OnOk result (rooms.new ≡ followed event.now outcome.now seat.now number rooms.old) }
{
    follow_outcome(rooms, seat, number, event, outcome)?;
    follow_end(rooms, seat, number);
    Ok(())
}

// It leaves where its connection closes.
fn follow_end(rooms: &mut Rooms, seat: &Seat, number: usize)
    requires known { number < length rooms.old }
    ensures { rooms.new ≡ ended (closes_by seat.now) number rooms.old }
{
    if seat.closes() {
        rooms.leave(number);
    }
}

// The same, but for its end.
fn follow_outcome(
    rooms: &mut Rooms,
    seat: &Seat,
    number: usize,
    event: &Event,
    outcome: &Outcome,
) -> Result<(), NoMemory>
    requires known { number < length rooms.old }
    ensures moved { OnOk result (rooms.new ≡ moved event.now outcome.now seat.now.room number rooms.old) }
    ensures count { OnOk result (length rooms.new ≡ length rooms.old) }
{
    match outcome {
        Outcome::Frame(frame) => {
            let frame = frame.get().copy()?;
            rooms.speak(number, frame)
        }
        Outcome::Done => follow_done(rooms, seat, number, event),
        _ => Ok(()),
    }
}

// Follows an event that was done.
fn follow_done(rooms: &mut Rooms, seat: &Seat, number: usize, event: &Event) -> Result<(), NoMemory>
    requires known { number < length rooms.old }
    ensures { OnOk result (rooms.new ≡ rows_from 0 (only number (with_done event.now seat.now.room)) rooms.old) }
{
    match event {
        Event::Accept(_) => join(rooms, seat, number),
        Event::Send(_) => {
            rooms.sent(number);
            Ok(())
        }
        _ => Ok(()),
    }
}

// It joins the room that its request named.
fn join(rooms: &mut Rooms, seat: &Seat, number: usize) -> Result<(), NoMemory>
    requires known { number < length rooms.old }
    ensures { OnOk result (rooms.new ≡ rows_from 0 (only number (in_room seat.now.room)) rooms.old) }
{
    let Some(room) = seat.room() else {
        return Ok(());
    };
    let room = room.clone()?;
    rooms.join(number, room);
    Ok(())
}
