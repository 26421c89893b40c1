// Texts held against rows that a reading of the rules outside the project gave: words, numbers, byte strings and lines.
use sp_text::{At, Line, Lines, TextRefused, hex_bytes, number, push_hex, push_number, words};
use std::alloc::Global;
use std::process::Abort;
use std::test::Fail;

/// Rows of a line, and how many words it has or the column of the first byte that can't stand there.
/// `\xHH` is a byte, and `(nothing)` no byte at all.
const WORDS: &str = r"rel\x201\x203\x20-|4 words
a|1 words
~\x20!|2 words
(nothing)|BadWord 1
\x20|BadWord 1
\x20a|BadWord 1
a\x20|BadWord 3
a\x20\x20b|BadWord 3
a\x09b|BadWord 2
a\x20b\x0d|BadWord 4
a\x00b|BadWord 2
a\x7f|BadWord 2
\x80|BadWord 1
caf\xc3\xa9\x20x|BadWord 4
a\x20b\x20\x20c\x20d|BadWord 5
end|1 words
a\x20b\x20c\x20d\x20e\x20f\x20g\x20h|8 words";

/// Rows of a word and its number.
const NUMBERS: &str = r"0|0
7|7
10|10
18446744073709551615|18446744073709551615
18446744073709551616|none
00|none
01|none
+1|none
-1|none
(nothing)|none
1\x20|none
\x201|none
1a|none
0x1|none
1e3|none
1_0|none
99999999999999999999|none
184467440737095516150|none
\xd9\xa1|none";

/// Rows of a word and its bytes.
const BYTES: &str = r"-|no bytes
00|00
6869|6869
ff|ff
0f1e2d|0f1e2d
(nothing)|BadHex
6|BadHex
686|BadHex
6A|BadHex
FF|BadHex
0x00|BadHex
--|BadHex
-0|BadHex
0-|BadHex
gg|BadHex
g0|BadHex
0g|BadHex
\x200|BadHex
00\x20|BadHex
\xc3\xa900|BadHex";

/// Rows of a text and what is given of it: how many lines, and how it ends. A text is the lengths of its lines, and `+` is a newline.
const LINES: &str = r"nothing|0 end
+|1 end
1|0 Cut 1 2
1+|1 end
1+ 0+ 1|2 Cut 3 2
131200+|1 end
131201+|0 LineLong 1 131201
131200|0 Cut 1 131201
131201|0 LineLong 1 131201
1+ 131201|1 LineLong 2 131201
0+ 0+ 0+ 131200+ 1|4 Cut 5 2";

/// The bytes that a row writes.
fn bytes_of(alloc: Global, written: &str) -> Result<Vec<u8>, Fail> {
    let mut bytes = Vec::new(alloc);
    if written == "(nothing)" {
        return Ok(bytes);
    }
    for (place, part) in written.split(r"\x").enumerate() {
        let part = part.as_bytes();
        if place == 0 {
            bytes.extend_from_slice(part)?;
        } else {
            let digits = part.get(..2).ok_or("no digits")?;
            bytes.extend_from_slice(&hex::decode(alloc, digits)?)?;
            bytes.extend_from_slice(part.get(2..).ok_or("no digits")?)?;
        }
    }
    Ok(bytes)
}

/// Words, one space apart.
fn joined(alloc: Global, words: &[&[u8]]) -> Result<Vec<u8>, Fail> {
    let mut line = Vec::new(alloc);
    for (place, word) in words.iter().enumerate() {
        if place > 0 {
            line.push(b' ')?;
        }
        line.extend_from_slice(word)?;
    }
    Ok(line)
}

/// What a line of number 7 is read as: how many words it has, or where it is bad.
fn words_answer(rt: &impl Abort, alloc: Global, bytes: &[u8]) -> Result<String, Fail> {
    assert!(rt; bytes.len() < 1 << 32);
    match words(alloc, Line { number: 7, bytes }) {
        Ok(found) => {
            assert_eq!(rt; joined(alloc, &found)?.as_slice(), bytes);
            Ok(format!(in alloc; "{} words", found.len())?)
        }
        Err(TextRefused::BadWord(At { line: 7, column })) => {
            Ok(format!(in alloc; "BadWord {column}")?)
        }
        Err(other) => Ok(format!(in alloc; "{other:?}")?),
    }
}

#[test]
fn a_line_is_words_or_bad_at_its_first_wrong_byte(rt: HostRuntime) -> Result<(), Fail> {
    let alloc = rt.alloc();
    for row in WORDS.lines() {
        let (written, answer) = row.split_once('|').ok_or("no answer")?;
        let bytes = bytes_of(alloc, written)?;
        assert_eq!(rt;
            words_answer(&rt, alloc, &bytes)?.as_str(),
            answer,
            "{written}"
        );
    }
    Ok(())
}

#[test]
fn a_number_is_read_from_its_one_word(rt: HostRuntime) -> Result<(), Fail> {
    let alloc = rt.alloc();
    for row in NUMBERS.lines() {
        let (written, answer) = row.split_once('|').ok_or("no answer")?;
        let word = bytes_of(alloc, written)?;
        let mut found = String::new(alloc);
        match number(&word) {
            Some(n) => push_number(&mut found, n)?,
            None => found.push_str("none")?,
        }
        assert_eq!(rt; found.as_str(), answer, "{written}");
    }
    Ok(())
}

#[test]
fn bytes_are_read_from_their_one_word(rt: HostRuntime) -> Result<(), Fail> {
    let alloc = rt.alloc();
    let at = At { line: 3, column: 5 };
    for row in BYTES.lines() {
        let (written, answer) = row.split_once('|').ok_or("no answer")?;
        let word = bytes_of(alloc, written)?;
        let mut found = String::new(alloc);
        match hex_bytes(alloc, &word, at) {
            Ok(bytes) if bytes.as_slice().is_empty() => found.push_str("no bytes")?,
            Ok(bytes) => push_hex(&mut found, bytes.as_slice())?,
            Err(TextRefused::BadHex(place)) if place == at => found.push_str("BadHex")?,
            Err(other) => found.push_str(&format!(in alloc; "{other:?}")?)?,
        }
        assert_eq!(rt; found.as_str(), answer, "{written}");
    }
    Ok(())
}

/// The text of lines that have these lengths.
fn text_of(alloc: Global, written: &str) -> Result<Vec<u8>, Fail> {
    let mut text = Vec::new(alloc);
    if written == "nothing" {
        return Ok(text);
    }
    for part in written.split(' ') {
        let (length, ends) = match part.strip_suffix("+") {
            Some(length) => (length, true),
            None => (part, false),
        };
        if !length.is_empty() {
            text.extend_from_slice(&vec![in alloc; b'x'; length.parse()?]?)?;
        }
        if ends {
            text.push(b'\n')?;
        }
    }
    Ok(text)
}

/// How a text ends.
fn ending_of(alloc: Global, ending: Result<Option<Line<'_>>, TextRefused>) -> Result<String, Fail> {
    Ok(match ending {
        Ok(None) => "end".to_string(alloc)?,
        Ok(Some(_)) => "no end".to_string(alloc)?,
        Err(TextRefused::LineLong(at)) => {
            format!(in alloc; "LineLong {} {}", at.line, at.column)?
        }
        Err(TextRefused::Cut(at)) => format!(in alloc; "Cut {} {}", at.line, at.column)?,
        Err(other) => format!(in alloc; "{other:?}")?,
    })
}

/// What is given of a text: how many lines, which have the numbers 1, 2, 3 and so on, and how it ends.
/// After a refusal it is refused again, and so it is after the end.
fn lines_answer(rt: &impl Abort, alloc: Global, text: &[u8]) -> Result<String, Fail> {
    assert!(rt; text.len() < 1 << 32);
    let mut lines = Lines::new(text);
    for given in 0..100 {
        match lines.next() {
            Ok(Some(line)) => {
                assert_eq!(rt; line.number, given + 1);
                assert!(rt; line.bytes.iter().all(|byte| *byte == b'x'));
            }
            ending => {
                let ending = ending_of(alloc, ending)?;
                assert_eq!(rt; ending_of(alloc, lines.next())?.as_str(), ending.as_str());
                return Ok(format!(in alloc; "{given} {ending}")?);
            }
        }
    }
    Ok(format!(in alloc; "too many lines")?)
}

#[test]
fn a_text_is_given_line_by_line_up_to_the_first_bad_one(rt: HostRuntime) -> Result<(), Fail> {
    let alloc = rt.alloc();
    for row in LINES.lines() {
        let (written, answer) = row.split_once('|').ok_or("no answer")?;
        let text = text_of(alloc, written)?;
        assert_eq!(rt;
            lines_answer(&rt, alloc, &text)?.as_str(),
            answer,
            "{written}"
        );
    }
    Ok(())
}
