//! What no clause can say: the library's contracts do not tell which words were read.

use crate::words_of;
use std::io::{Error, ErrorKind};
use std::test::Fail;

#[test]
fn words_that_are_not_utf8_are_none(rt: HostRuntime) -> Result<(), Fail> {
    let words = words_of(rt.alloc(), Err(Error::from(ErrorKind::InvalidData)))?;
    assert_eq!(rt; words.len(), 0);
    Ok(())
}

#[test]
fn another_error_is_no_list_of_words(rt: HostRuntime) -> Result<(), Fail> {
    let words = words_of(rt.alloc(), Err(Error::from(ErrorKind::OutOfMemory)));
    assert!(rt; words.is_err());
    Ok(())
}
