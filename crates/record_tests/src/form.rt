// The first line broken in each way.
use crate::checks::{check_all, malformed, untouched, untouched_square};
use std::test::Fail;

#[test]
fn word_and_letter(rt: HostRuntime) -> Result<(), Fail> {
    check_all(
        &rt,
        &mut [untouched(); 3],
        &[
            malformed(b"", 0),
            malformed(b"\n", 0),
            malformed(b" net S 0 0\n", 0),
            malformed(b"nat S 0 0\n", 0),
            malformed(b"nets S 0 0\n", 0),
            malformed(b"ne", 0),
            malformed(b"net", 3),
            malformed(b"net\n", 3),
            malformed(b"net ", 4),
            malformed(b"net  S 0 0\n", 4),
            malformed(b"net Q 0 0\n", 4),
            malformed(b"net s 0 0\n", 4),
            malformed(b"net SS 0 0\n", 4),
            malformed(b"net S", 5),
            malformed(b"net S\n", 5),
        ],
    )
}

#[test]
fn counts(rt: HostRuntime) -> Result<(), Fail> {
    check_all(
        &rt,
        &mut [untouched(); 3],
        &[
            malformed(b"net S x 0\n", 6),
            malformed(b"net S 65 0\n", 6),
            malformed(b"net S -1 0\n", 6),
            malformed(b"net S 01 0\n", 6),
            malformed(b"net S 64", 8),
            malformed(b"net S 64\n", 8),
            malformed(b"net S 0 257\n", 8),
            malformed(b"net S 0 -1\n", 8),
            malformed(b"net S 0 0\r\n", 8),
            malformed(b"net S 0 0", 9),
            malformed(b"net S 0 0 \n", 10),
            malformed(b"net S 0 0 5\n", 10),
        ],
    )
}

#[test]
fn letter_of_the_other_kind(rt: HostRuntime) -> Result<(), Fail> {
    check_all(
        &rt,
        &mut [untouched_square(); 3],
        &[
            malformed(b"net S 0 0\nsup\nfrom\nto\n", 4),
            malformed(b"net Q 0 0\nsup\nfrom\nto\nx", 22),
        ],
    )
}
