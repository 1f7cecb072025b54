//! What is read of the batches of a queue, in an answer.
ghost use Rattle.std.specs.Prelude.{◌≡◌};
ghost use Rattle.vq_layer_c.specs.Read.{batches_answer, released_answer, token_answer};
ghost use Rattle.vq_layer_c.specs.Read.{room_told, rows_told, signals_of, waits_of};
ghost use Rattle.vq_layer_c.specs.Told.{fit_reply, signal_row, wait_row, with_front_of};

use crate::answer::{Answer, PointRow, said, signal_row, told, wait_row};
use crate::reply::Reply;
use vq_layer::{LiveLayer, Signal, Wait};

/// How many batches a queue has that aren't finished.
pub(crate) fn batches(layer: &LiveLayer, queue: u32) -> Answer
    ensures { result ≡ batches_answer queue layer.now }
{
    match layer.queue(queue) {
        Some(queue) => told(Reply::Done, 0, queue.batch_count() as u64),
        None => said(Reply::NoQueue),
    }
}

/// How many of them are released.
pub(crate) fn released(layer: &LiveLayer, queue: u32) -> Answer
    ensures { result ≡ released_answer queue layer.now }
{
    match layer.queue(queue) {
        Some(queue) => told(Reply::Done, 0, queue.released_count() as u64),
        None => said(Reply::NoQueue),
    }
}

/// The token of a batch.
pub(crate) fn token(layer: &LiveLayer, queue: u32, place: u64) -> Answer
    ensures { result ≡ token_answer queue place layer.now }
{
    let Some(queue) = layer.queue(queue) else {
        return said(Reply::NoQueue);
    };
    match queue.batch(place as usize) {
        Some(batch) => told(Reply::Done, 0, batch.token()),
        None => said(Reply::NoBatch),
    }
}

/// Whether so many rows went into so much room.
fn fit_reply(rows: usize, room: usize) -> Reply
    ensures { result ≡ fit_reply rows room }
{
    if rows <= room {
        Reply::Done
    } else {
        Reply::NoRoom
    }
}

/// Writes as many signals to the front of a room as go into it.
fn put_signals(signals: &[Signal], room: &mut [PointRow])
    ensures { room.new ≡ with_front_of signal_row signals.now room.old }
{
    for i in 0..signals.len().min(room.len()) {
        room[i] = signal_row(signals[i]);
    }
}

/// Writes as many waits to the front of a room as go into it.
fn put_waits(waits: &[Wait], room: &mut [PointRow])
    ensures { room.new ≡ with_front_of wait_row waits.now room.old }
{
    for i in 0..waits.len().min(room.len()) {
        room[i] = wait_row(waits[i]);
    }
}

/// The signals of a batch, in a room.
pub(crate) fn signals(layer: &LiveLayer, queue: u32, place: u64, room: &mut [PointRow]) -> Answer
    ensures room { room.new ≡ room_told signal_row signals_of queue place room.old layer.now }
    ensures answer { result ≡ rows_told signals_of queue place room.old layer.now }
{
    let Some(queue) = layer.queue(queue) else {
        return said(Reply::NoQueue);
    };
    let Some(batch) = queue.batch(place as usize) else {
        return said(Reply::NoBatch);
    };
    let rows = batch.signals();
    put_signals(rows, room);
    told(fit_reply(rows.len(), room.len()), 0, rows.len() as u64)
}

/// The waits of a batch, in a room.
pub(crate) fn waits(layer: &LiveLayer, queue: u32, place: u64, room: &mut [PointRow]) -> Answer
    ensures room { room.new ≡ room_told wait_row waits_of queue place room.old layer.now }
    ensures answer { result ≡ rows_told waits_of queue place room.old layer.now }
{
    let Some(queue) = layer.queue(queue) else {
        return said(Reply::NoQueue);
    };
    let Some(batch) = queue.batch(place as usize) else {
        return said(Reply::NoBatch);
    };
    let rows = batch.waits();
    put_waits(rows, room);
    told(fit_reply(rows.len(), room.len()), 0, rows.len() as u64)
}
