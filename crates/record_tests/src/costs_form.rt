// The lines of costs broken in each way, and what follows the last line.
use crate::checks::{check_all, malformed, untouched, untouched_square};
use std::test::Fail;

#[test]
fn stepped_rows(rt: HostRuntime) -> Result<(), Fail> {
    check_all(
        &rt,
        &mut [untouched(); 3],
        &[
            malformed(b"net S 2 1\nsup 1 -1\nfrom 1\nto 2\n", 31),
            malformed(b"net S 2 1\nsup 1 -1\nfrom 1\nto 2\nd 1 0 0 3 1\n", 31),
            malformed(b"net S 2 1\nsup 1 -1\nfrom 1\nto 2\nc\n", 32),
            malformed(b"net S 2 1\nsup 1 -1\nfrom 1\nto 2\nc 9 0 0\n", 33),
            malformed(b"net S 2 1\nsup 1 -1\nfrom 1\nto 2\nc -1 0 0\n", 33),
            malformed(b"net S 2 1\nsup 1 -1\nfrom 1\nto 2\nc 1 0 0 3\n", 40),
            malformed(b"net S 2 1\nsup 1 -1\nfrom 1\nto 2\nc 1 0 0 3 x\n", 41),
            malformed(b"net S 2 1\nsup 1 -1\nfrom 1\nto 2\nc 1 0 0 3 1", 42),
            malformed(b"net S 2 1\nsup 1 -1\nfrom 1\nto 2\nc 1 0 0 3 1 1\n", 43),
        ],
    )
}

#[test]
fn quadratic_rows(rt: HostRuntime) -> Result<(), Fail> {
    check_all(
        &rt,
        &mut [untouched_square(); 3],
        &[
            malformed(b"net Q 2 1\nsup 1 -1\nfrom 1\nto 2\nc 4 3\n", 36),
            malformed(b"net Q 2 1\nsup 1 -1\nfrom 1\nto 2\nc 4 3 2 1\n", 39),
            malformed(b"net Q 2 1\nsup 1 -1\nfrom 1\nto 2\nc 4 3 2", 38),
        ],
    )
}

#[test]
fn after_the_last_line(rt: HostRuntime) -> Result<(), Fail> {
    check_all(
        &rt,
        &mut [untouched(); 3],
        &[
            malformed(b"net S 0 0\nsup\nfrom\nto\n\n", 22),
            malformed(b"net S 0 0\nsup\nfrom\nto\n ", 22),
            malformed(b"net S 0 0\nsup\nfrom\nto\nc 0 0 0\n", 22),
            malformed(b"net S 2 1\nsup 1 -1\nfrom 1\nto 2\nc 0 0 0\nc 0 0 0\n", 39),
        ],
    )
}
