// What the program answers to a few records.
use crate::answers::answer_to;
use std::test::Fail;

#[test]
fn answers(rt: HostRuntime) -> Result<(), Fail> {
    let cases: [(&str, &str); 8] = [
        ("", "refused 15 0 record 0 0\n"),
        ("net S 0 0\nsup\nfrom\nto\n", "settled 0 0\nload\n"),
        // two nodes, quadratic
        (
            "net Q 2 1\nsup 2 -2\nfrom 1\nto 2\nc 4 3 2\n",
            "settled 14 14\nload 2\n",
        ),
        // no routing: node 1 is over full
        (
            "net S 2 1\nsup 5 -5\nfrom 1\nto 2\nc 1 0 0 3 1\n",
            "refused 11 1 sheet 0 0\nset 1\n",
        ),
        (
            "net S 2 1\nsup 1 0\nfrom 1\nto 2\nc 1 0 0 3 1\n",
            "refused 10 0 sheet 0 0\n",
        ),
        // a supply outside its limits, a loop, and slopes that fall
        (
            "net S 2 0\nsup 1 100001\nfrom\nto\n",
            "refused 3 1 draft 2 3\n",
        ),
        (
            "net S 2 1\nsup 0 0\nfrom 2\nto 2\nc 0 0 0\n",
            "refused 9 1 draft 4 2\n",
        ),
        (
            "net S 2 1\nsup 0 0\nfrom 1\nto 2\nc 2 0 0 1 1 4 3\n",
            "refused 5 2 cost 5 0\n",
        ),
    ];
    for (text, expected) in cases.iter().copied() {
        let given = answer_to(text.as_bytes()).to_string(rt.alloc())?;
        assert_eq!(rt; given.as_str(), expected);
    }
    Ok(())
}

// Of a record and what follows it the first byte that is too much is told; of a text that is too long, the end of what is read.
#[test]
fn long_texts(rt: HostRuntime) -> Result<(), Fail> {
    let mut text = [b' '; 65_537];
    text[0..22].copy_from_slice(b"net S 0 0\nsup\nfrom\nto\n");
    for (length, expected) in [
        (65_536, "refused 15 22 record 0 0\n"),
        (65_537, "refused 15 65536 record 0 0\n"),
    ] {
        let given = answer_to(&text[0..length]).to_string(rt.alloc())?;
        assert_eq!(rt; given.as_str(), expected);
    }
    Ok(())
}
