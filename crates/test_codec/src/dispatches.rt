//! Calls dispatched over a book.

use crate::Book;
use crate::call_values::{A1, B2, batch, transfer};
use call_dispatch::{Call, CallEnd, dispatch};
use std::alloc::{AllocError, Global};
use std::test::Fail;

/// A book with one row, of which the caller has 1000 and must keep 100, and the receiver all but 50 of the greatest number.
fn open(alloc: Global, moves_left: Option<u32>) -> Result<Book, AllocError> {
    let accounts = [(A1, 0, 1000), (B2, 0, u128::MAX - 50)];
    Book::open(
        alloc,
        vec![in alloc; 0, 7]?,
        &accounts,
        (A1, 0),
        100,
        moves_left,
    )
}

/// How the call ends, and what the caller then has of the row.
fn ended(alloc: Global, call: &Call) -> Result<(CallEnd, u128), Fail> {
    let mut book = open(alloc, None)?;
    let end = dispatch(&mut book, &A1, call)?;
    Ok((end, book.amount(&A1, 0)))
}

#[test]
fn each_call_ends_so(rt: HostRuntime) -> Result<(), Fail> {
    let alloc = rt.alloc();
    assert!(rt; ended(alloc, &transfer(0, B2, 5))? == (CallEnd::Success, 995));
    assert!(rt; ended(alloc, &transfer(1, B2, 5))? == (CallEnd::Error(1), 1000));
    assert!(rt; ended(alloc, &transfer(0, B2, 901))? == (CallEnd::Error(2), 1000));
    assert!(rt; ended(alloc, &transfer(0, [3; 32], 900))? == (CallEnd::Success, 100));
    assert!(rt; ended(alloc, &transfer(0, B2, 51))? == (CallEnd::Error(3), 1000));
    assert!(rt; ended(alloc, &transfer(0, A1, 900))? == (CallEnd::Success, 1000));
    assert!(rt; ended(alloc, &transfer(0, A1, 901))? == (CallEnd::Error(2), 1000));
    assert!(rt; ended(alloc, &Call::Fail(9))? == (CallEnd::Error(9), 1000));
    Ok(())
}

#[test]
fn a_batch_is_all_or_nothing(rt: HostRuntime) -> Result<(), Fail> {
    let alloc = rt.alloc();
    let fails = batch(vec![in alloc; transfer(0, B2, 5), Call::Fail(9)]?);
    assert!(rt; ended(alloc, &fails)? == (CallEnd::Error(9), 1000));
    let moves = batch(vec![in alloc; transfer(0, B2, 5), transfer(0, [3; 32], 6)]?);
    assert!(rt; ended(alloc, &moves)? == (CallEnd::Success, 989));
    let passes = batch(vec![in alloc;
        transfer(0, B2, 5),
        transfer(0, [3; 32], 6),
        transfer(0, B2, 46),
    ]?);
    assert!(rt; ended(alloc, &passes)? == (CallEnd::Error(3), 1000));
    assert!(rt; ended(alloc, &batch(Vec::new(alloc)))? == (CallEnd::Success, 1000));
    Ok(())
}

/// What the caller has of the row where memory is refused after so many moves.
fn stands(alloc: Global, call: &Call, moves: u32) -> Result<Option<u128>, Fail> {
    let mut book = open(alloc, Some(moves))?;
    match dispatch(&mut book, &A1, call) {
        Ok(_) => Ok(None),
        Err(_) => Ok(Some(book.amount(&A1, 0))),
    }
}

#[test]
fn a_front_stands_where_memory_is_refused(rt: HostRuntime) -> Result<(), Fail> {
    let alloc = rt.alloc();
    let fails = batch(vec![in alloc; transfer(0, B2, 5), transfer(0, [3; 32], 6), Call::Fail(9)]?);
    let cases = [
        (0, Some(1000)),
        (1, Some(995)),
        (2, Some(989)),
        (3, Some(995)),
        (4, None),
    ];
    for (moves, stand) in cases {
        assert!(rt; stands(alloc, &fails, moves)? == stand, "{moves}");
    }
    Ok(())
}
