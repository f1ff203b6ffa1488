//! Parenthesised texts with their items, and with their faults.

use cpt_sexp::{Item, SexpError, parse};
use std::alloc::{AllocError, Global};

fn word(from: u32, to: u32) -> Item {
    Item::Word { from, to }
}

fn group(from: u32, to: u32, next: u32) -> Item {
    Item::Group { from, to, next }
}

fn error_of(alloc: Global, text: &[u8]) -> Option<SexpError> {
    if text.len() > 16_777_216 {
        return None;
    }
    parse(alloc, text).err()
}

fn nested(alloc: Global, depth: usize) -> Result<Vec<u8>, AllocError> {
    let mut text = vec![in alloc; b'('; depth]?;
    let ends = vec![in alloc; b')'; depth]?;
    text.extend_from_slice(&ends)?;
    Ok(text)
}

#[test]
fn items_of_texts(rt: HostRuntime) -> Result<(), SexpError> {
    let cases: [(&[u8], &[Item], &[u8]); 7] = [
        (b"", &[], b""),
        (
            b" \t\r\n; only (a comment",
            &[],
            b" \t\r\n; only (a comment",
        ),
        (b"Ab", &[word(0, 2)], b"ab"),
        (b"()x", &[group(0, 2, 1), word(2, 3)], b"()x"),
        (
            b"(a (B:c) )d;\x00\xff)\n?e",
            &[
                group(0, 10, 4),
                word(1, 2),
                group(3, 8, 4),
                word(4, 7),
                word(10, 11),
                word(16, 18),
            ],
            b"(a (b:c) )d;\x00\xff)\n?e",
        ),
        (
            b"a;b\nc(d)",
            &[word(0, 1), word(4, 5), group(5, 8, 4), word(6, 7)],
            b"a;b\nc(d)",
        ),
        (b"!~[Z]", &[word(0, 5)], b"!~[z]"),
    ];
    for (text, items, lower) in cases {
        if text.len() < 100 {
            let forest = parse(rt.alloc(), text)?;
            assert_eq!(rt; forest.items(), items);
            assert_eq!(rt; forest.text(), lower);
        }
    }
    Ok(())
}

#[test]
fn faults_of_texts(rt: HostRuntime) -> Result<(), AllocError> {
    let cases: [(&[u8], SexpError); 12] = [
        (
            b"(define (domain d)\n (:predicates (p))",
            SexpError::Unclosed(0),
        ),
        (b"a (b (c)", SexpError::Unclosed(2)),
        (b"(a) (b", SexpError::Unclosed(4)),
        (b")", SexpError::Unopened(0)),
        (b"(a)) (", SexpError::Unopened(3)),
        (b"(a \x7f b)", SexpError::BadByte(3)),
        (b"(a \x7f b", SexpError::Unclosed(0)),
        (b"(a \x7f b) (", SexpError::BadByte(3)),
        (b"a\x00 )", SexpError::BadByte(1)),
        (b"; \x00\n\x80", SexpError::BadByte(4)),
        (b"(a ; )\n", SexpError::Unclosed(0)),
        (b"(a \x0c ; )\n", SexpError::Unclosed(0)),
    ];
    for (text, fault) in cases {
        assert_eq!(rt; error_of(rt.alloc(), text), Some(fault));
    }
    let whole = b"(a (b) c)";
    for len in 1..9 {
        assert_eq!(rt;
            error_of(rt.alloc(), &whole[..len]),
            Some(SexpError::Unclosed(0))
        );
    }
    assert_eq!(rt; error_of(rt.alloc(), &nested(rt.alloc(), 64)?), None);
    assert_eq!(rt;
        error_of(rt.alloc(), &nested(rt.alloc(), 65)?),
        Some(SexpError::Deep(64))
    );
    Ok(())
}
