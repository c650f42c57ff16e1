// A ring between two threads.

use river_base::{Flat, Item, Row};
use river_rings::{Feed, RowFeed, RowTake, Take, ring, ring_of_rows};
use std::sync::Wait;
use std::test::Fail;
use std::thread;

const ITEMS: u32 = 1_000;

fn item_of(value: u32) -> Item {
    Item::Flat(Flat::One(Row::one(value as i64)))
}

fn send_waiting(rt: &impl Wait, feed: &mut Feed, item: Item) {
    let mut item = item;
    for _ in rt.forever() {
        match feed.push(item) {
            Ok(()) => return,
            Err(back) => item = back,
        }
        thread::yield_now();
    }
    unreachable!()
}

fn take_waiting(rt: &impl Wait, take: &mut Take) -> Item {
    for _ in rt.forever() {
        if let Some(item) = take.pop() {
            return item;
        }
        thread::yield_now();
    }
    unreachable!()
}

fn send_each(rt: &impl Wait, feed: Feed) {
    let mut feed = feed;
    for value in 0..ITEMS {
        send_waiting(rt, &mut feed, item_of(value));
    }
}

// How many items came before the first that was not the next one.
fn in_order(rt: &impl Wait, take: Take) -> u32 {
    let mut take = take;
    for value in 0..ITEMS {
        if take_waiting(rt, &mut take) != item_of(value) {
            return value;
        }
    }
    ITEMS
}

#[test]
fn a_thousand_items_in_order(rt: HostRuntime) -> Result<(), Fail> {
    let (feed, take) = ring(rt.alloc(), 3)?;
    let (_, came) = thread::join(
        &rt,
        move || send_each(&rt, feed),
        move || -> u32 { in_order(&rt, take) },
    );
    assert_eq!(rt; came, ITEMS);
    Ok(())
}

// Sends the row, where it has as many values as the rows of the ring and there is room.
fn send_row(feed: &mut RowFeed, row: &[i64]) -> bool {
    if feed.width() != row.len() || !feed.has_room() {
        return false;
    }
    feed.put(row);
    true
}

// Takes the next row, where it is there and has as many values.
fn take_row(take: &mut RowTake, row: &mut [i64]) -> bool {
    if take.width() != row.len() || !take.ready() {
        return false;
    }
    take.next(row);
    true
}

fn send_row_waiting(rt: &impl Wait, feed: &mut RowFeed, row: &[i64]) {
    for _ in rt.forever() {
        if send_row(feed, row) {
            return;
        }
        thread::yield_now();
    }
    unreachable!()
}

fn take_row_waiting(rt: &impl Wait, take: &mut RowTake, row: &mut [i64]) {
    for _ in rt.forever() {
        if take_row(take, row) {
            return;
        }
        thread::yield_now();
    }
    unreachable!()
}

fn send_each_row(rt: &impl Wait, feed: RowFeed) {
    let mut feed = feed;
    for value in 0..ITEMS as i64 {
        send_row_waiting(rt, &mut feed, &[value, 7, !value]);
    }
}

// How many rows came whole before the first that was not the next one.
fn rows_in_order(rt: &impl Wait, take: RowTake) -> u32 {
    let mut take = take;
    for value in 0..ITEMS {
        let mut row = [0; 3];
        take_row_waiting(rt, &mut take, &mut row);
        let next = value as i64;
        if row[0] != next || row[1] != 7 || row[2] != !next {
            return value;
        }
    }
    ITEMS
}

/// Rows of three values come in order, and each of them whole.
#[test]
fn a_thousand_rows_in_order(rt: HostRuntime) -> Result<(), Fail> {
    let (feed, take) = ring_of_rows(rt.alloc(), 3, 3)?;
    let (_, came) = thread::join(
        &rt,
        move || send_each_row(&rt, feed),
        move || -> u32 { rows_in_order(&rt, take) },
    );
    assert_eq!(rt; came, ITEMS);
    Ok(())
}

// Whether the taking end of an empty ring is ready just where an item was sent and did not come yet.
fn ready_as_sent(feed: Feed, take: Take) -> bool {
    let mut feed = feed;
    let mut take = take;
    if take.ready() || feed.push(item_of(7)).is_err() || !take.ready() {
        return false;
    }
    take.pop().is_some_and(|item| item == item_of(7)) && !take.ready()
}

// The same of a ring of rows as wide as this one.
fn rows_ready_as_sent(feed: RowFeed, take: RowTake, row: &[i64]) -> bool {
    let mut feed = feed;
    let mut take = take;
    if take.ready() || !send_row(&mut feed, row) || !take.ready() {
        return false;
    }
    let mut came = [0; 2];
    let fits = row.len() <= 2 && take_row(&mut take, &mut came[..row.len()]);
    fits && came[0] == 7 && !take.ready()
}

/// The taking end looks by itself: it is ready for what was sent, also where both ends have not looked beside each other.
#[test]
fn ready_looks(rt: HostRuntime) -> Result<(), Fail> {
    let (feed, take) = ring(rt.alloc(), 2)?;
    assert!(rt; ready_as_sent(feed, take));
    for width in 1..3 {
        let (feed, take) = ring_of_rows(rt.alloc(), width, 2)?;
        assert!(rt; rows_ready_as_sent(feed, take, &[7, 8][..width as usize]));
    }
    Ok(())
}

// Whether the sending end of an empty ring of one has room just where no item is there that did not come yet.
fn room_as_taken(feed: Feed, take: Take) -> bool {
    let mut feed = feed;
    let mut take = take;
    if !feed.has_room() || feed.push(item_of(7)).is_err() || feed.has_room() {
        return false;
    }
    take.pop().is_some_and(|item| item == item_of(7)) && feed.has_room()
}

// The same of a ring of rows as wide as this one.
fn row_room_as_taken(feed: RowFeed, take: RowTake, row: &[i64]) -> bool {
    let mut feed = feed;
    let mut take = take;
    if !feed.has_room() || !send_row(&mut feed, row) || feed.has_room() {
        return false;
    }
    let mut came = [0; 2];
    let fits = row.len() <= 2 && take_row(&mut take, &mut came[..row.len()]);
    fits && feed.has_room()
}

/// The sending end looks by itself: it has room for what was taken, also where both ends have not looked beside each other.
#[test]
fn room_looks(rt: HostRuntime) -> Result<(), Fail> {
    let (feed, take) = ring(rt.alloc(), 1)?;
    assert!(rt; room_as_taken(feed, take));
    for width in 1..3 {
        let (feed, take) = ring_of_rows(rt.alloc(), width, 1)?;
        assert!(rt; row_room_as_taken(feed, take, &[7, 8][..width as usize]));
    }
    Ok(())
}
