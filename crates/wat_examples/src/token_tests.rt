// The tokens of texts. The expected ones are worked out from the rules of the text format.
ghost use Rattle.wat_grammar.specs.Tokens.{Token as Spelled};
ghost use Rattle.wat_tokens.specs.Seen.{IsSeen};

use std::alloc::{AllocError, Global};
use std::test::Fail;
use wat_tokens::{BadToken, Token, Tokens, put_string};

// The tokens of a text, each with a space behind it, and strings by their bytes; none where there are none.
fn seen(alloc: Global, text: &[u8]) -> Result<Option<Vec<u8>>, AllocError> {
    let mut tokens = Tokens::of(text);
    let mut out = Vec::new(alloc);
    for _ in 0..u64::MAX {
        match tokens.next() {
            Ok(Some(token)) => put_token(&mut out, token)?,
            Ok(None) => return Ok(Some(out)),
            Err(BadToken) => return Ok(None),
        }
    }
    Ok(None)
}

fn put_token(out: &mut Vec<u8>, token: Token<'_>) -> Result<(), AllocError>
    requires { (first : Spelled) × IsSeen token first }
{
    match token {
        Token::Opening => out.push(b'(')?,
        Token::Closing => out.push(b')')?,
        Token::Word(word) => out.extend_from_slice(word)?,
        Token::Quoted(inner) => put_string(out, inner)?,
    }
    out.push(b' ')?;
    Ok(())
}

static TEXTS: [(&[u8], &[u8]); 22] = [
    (b"", b""),
    (b" \t\n\r", b""),
    (b"(module)", b"( module ) "),
    (b" ( module\n) ", b"( module ) "),
    (b"()()", b"( ) ( ) "),
    (b"a\"b\"c", b"a b c "),
    (b"\"a\"\"b\"", b"a b "),
    (b"\"\"", b" "),
    (b";; no token (", b""),
    (b";;", b""),
    (b"a ;; b\nc", b"a c "),
    (b"a;;b", b"a "),
    (b"(;;)", b""),
    (b"(; ( \" ; ;)x", b"x "),
    (b"(;(;;);)x", b"x "),
    (b"(; ;; ;)x", b"x "),
    (b"(;(;);)y;)x", b"x "),
    (b"((;;))", b"( ) "),
    (
        b"\"\\t\\n\\r\\\"\\'\\\\\\00\\7f\\Ff\"",
        b"\t\n\r\"'\\\x00\x7f\xff ",
    ),
    (b"\"(;;\xc3\xa9\x80\"", b"(;;\xc3\xa9\x80 "),
    (b"(;\x00\x80;);;\xff\nx", b"x "),
    (
        b"!#$%&'*+,-./09:<=>?@AZ[\\]^_`az{|}~",
        b"!#$%&'*+,-./09:<=>?@AZ[\\]^_`az{|}~ ",
    ),
];

// Texts that have no tokens.
static BAD: [&[u8]; 17] = [
    b";",
    b"a;b",
    b"; ;",
    b"(;",
    b"(;)",
    b"(; (; ;)",
    b"\"",
    b"\"a",
    b"\"\\\"",
    b"\"\\0\"",
    b"\"\\0g\"",
    b"\"\\g0\"",
    b"\"\\u{0}\"",
    b"\"\x1f\"",
    b"\"\x7f\"",
    b"a\x80",
    b"\x00",
];

#[test]
fn texts_are_tokens(rt: HostRuntime) -> Result<(), Fail> {
    for (text, expected) in &TEXTS {
        let found = seen(rt.alloc(), text)?;
        assert!(rt;
            found.is_some_and(|tokens| tokens.as_slice() == *expected),
            "{text:?}"
        );
    }
    Ok(())
}

#[test]
fn other_texts_are_refused(rt: HostRuntime) -> Result<(), Fail> {
    for text in &BAD {
        assert!(rt; seen(rt.alloc(), text)?.is_none(), "{text:?}");
    }
    Ok(())
}
