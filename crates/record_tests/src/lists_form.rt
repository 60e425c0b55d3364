// The lines of supplies, tails and heads broken in each way.
use crate::checks::{check_all, malformed, untouched};
use std::test::Fail;

#[test]
fn supplies(rt: HostRuntime) -> Result<(), Fail> {
    check_all(
        &rt,
        &mut [untouched(); 3],
        &[
            malformed(b"net S 2 1\n", 10),
            malformed(b"net S 2 1\n\n", 10),
            malformed(b"net S 2 1\nsub 1 -1\n", 10),
            malformed(b"net S 2 1\nsup", 13),
            malformed(b"net S 2 1\nsup 1\n", 15),
            malformed(b"net S 2 1\nsup 1 \n", 16),
            malformed(b"net S 2 1\nsup 1  -1\n", 16),
            malformed(b"net S 2 1\nsup 1 -0\n", 16),
            malformed(b"net S 2 1\nsup 1 12345678901\n", 16),
            malformed(b"net S 2 1\nsup 1 -1", 18),
            malformed(b"net S 2 1\nsup 1 -1 \n", 19),
            malformed(b"net S 2 1\nsup 1 -1 0\n", 19),
        ],
    )
}

#[test]
fn tails(rt: HostRuntime) -> Result<(), Fail> {
    check_all(
        &rt,
        &mut [untouched(); 3],
        &[
            malformed(b"net S 2 1\nsup 1 -1\n", 19),
            malformed(b"net S 2 1\nsup 1 -1\nform 1\n", 19),
            malformed(b"net S 2 1\nsup 1 -1\nfrom\n", 23),
            malformed(b"net S 2 1\nsup 1 -1\nfrom +1\n", 24),
            malformed(b"net S 2 1\nsup 1 -1\nfrom 1", 25),
            malformed(b"net S 2 1\nsup 1 -1\nfrom 1 2\n", 26),
        ],
    )
}

#[test]
fn heads(rt: HostRuntime) -> Result<(), Fail> {
    check_all(
        &rt,
        &mut [untouched(); 3],
        &[
            malformed(b"net S 2 1\nsup 1 -1\nfrom 1\n", 26),
            malformed(b"net S 2 1\nsup 1 -1\nfrom 1\ntoo 2\n", 26),
            malformed(b"net S 2 1\nsup 1 -1\nfrom 1\nto\n", 28),
            malformed(b"net S 2 1\nsup 1 -1\nfrom 1\nto 2", 30),
            malformed(b"net S 2 1\nsup 1 -1\nfrom 1\nto 2 1\n", 31),
        ],
    )
}
