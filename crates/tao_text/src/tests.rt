mod others;

use crate::{
    Script, Step, TextFault, TextKind, What, begin_line, end_line, is_hex, is_text, line_hex,
    line_words, next_line, next_word, no_more_words, number_of, push_hex, push_number,
    push_numbers, push_word, read_script, wide_number,
};
use std::alloc::Global;
use std::test::Fail;
use tao_base::{Block, Form, Image, NoMemory, Op};

// scripts with each kind of line, and the line numbers of their steps
static SCRIPTS: [(&str, &[u32]); 4] = [
    (
        "tree 2 2 4 2 1\ntape 0 3 2 1 2\nload 0 61616161\ndo 0 read 0\ndo 0 write 0 62626262\ndo 1 read 0\n",
        &[4, 5, 6],
    ),
    ("tree 1 1 4 2 1\ntape 4294967295 0 7\n", &[]),
    (
        "tree 2 1 8 1 64\nform turn\nkey 000102030405060708090a0b0c0d0e0f101112131415161718191a1b1c1d1e1f\nload 0 00ff10abcdef9900\na 63 pad\ndo 0 pad\na 1 write 0 0000000000000001\na 2 read 0\nread 4294967295\nread 0 2\ndone 7\nput 1\nput 1 7\nack 0\n",
        &[5, 6, 7, 8, 9, 10, 11, 12, 13, 14],
    ),
    ("tree 1 1 4 1 1\nform 2\nack 1\n", &[3]),
];

#[test]
fn scripts(rt: HostRuntime) -> Result<(), Fail> {
    for (text, lines) in &SCRIPTS {
        let script = read_script(rt.alloc(), text.as_bytes())?;
        let spelled = spelling(rt.alloc(), &script)?;
        assert!(rt; spelled.as_slice() == text.as_bytes(), "at {text}");
        let steps = script.steps.as_slice();
        assert_eq!(rt; steps.len(), lines.len());
        for (step, line) in steps.iter().zip(*lines) {
            assert_eq!(rt; step.line, *line);
        }
    }
    Ok(())
}

// Prints a script as a text.
fn spelling(alloc: Global, script: &Script) -> Result<Image, NoMemory> {
    let mut out = Image::new(alloc);
    spell_header(alloc, &mut out, script)?;
    for load in script.loads.as_slice() {
        line_hex(&mut out, "load", &[u64::from(load.id)], &load.value)?;
    }
    for step in script.steps.as_slice() {
        spell_step(&mut out, step)?;
    }
    Ok(out)
}

fn spell_header(alloc: Global, out: &mut Image, script: &Script) -> Result<(), NoMemory> {
    let p = script.params;
    line_words(
        out,
        "tree",
        &[
            u64::from(p.l()),
            u64::from(p.z()),
            u64::from(p.b()),
            u64::from(p.n()),
            u64::from(p.k()),
        ],
    )?;
    match p.form() {
        Form::One => {}
        Form::Two => out.extend_from_slice(b"form 2\n")?,
        Form::Turn => out.extend_from_slice(b"form turn\n")?,
    }
    if script.key != [0; 32] {
        line_hex(out, "key", &[], &Block::from_slice(alloc, &script.key)?)?;
    }
    if let Some(tape) = &script.tape {
        begin_line(out, "tape")?;
        for word in tape.as_slice() {
            push_number(out, u64::from(*word))?;
        }
        end_line(out)?;
    }
    Ok(())
}

fn spell_step(out: &mut Image, step: &Step) -> Result<(), NoMemory> {
    match &step.what {
        What::Do(client, op) => spell_call(out, "do", *client, op),
        What::A(client, op) => spell_call(out, "a", *client, op),
        What::Read(fetch, None) => line_words(out, "read", &[*fetch]),
        What::Read(fetch, Some(depth)) => line_words(out, "read", &[*fetch, u64::from(*depth)]),
        What::Done(fetch) => line_words(out, "done", &[*fetch]),
        What::Put(version, None) => line_words(out, "put", &[u64::from(*version)]),
        What::Put(version, Some(node)) => {
            line_words(out, "put", &[u64::from(*version), u64::from(*node)])
        }
        What::Ack(version) => line_words(out, "ack", &[u64::from(*version)]),
    }
}

fn spell_call(out: &mut Image, name: &str, client: u32, op: &Op) -> Result<(), NoMemory> {
    begin_line(out, name)?;
    push_number(out, u64::from(client))?;
    spell_op(out, op)?;
    end_line(out)
}

fn spell_op(out: &mut Image, op: &Op) -> Result<(), NoMemory> {
    match op {
        Op::Read(id) => {
            push_word(out, "read")?;
            push_number(out, u64::from(*id))
        }
        Op::Write(id, value) => {
            push_word(out, "write")?;
            push_number(out, u64::from(*id))?;
            push_hex(out, value.as_slice())
        }
        Op::Pad => push_word(out, "pad"),
    }
}

// comments, blank lines, extra spaces, upper-case hex, and a last line without byte 10
#[test]
fn loose_text(rt: HostRuntime) -> Result<(), Fail> {
    let text = " \n#tree\n  tree  1 1 4 1 1\n\n # a\nload 0  00FFabCD\n\ndo 0 read 0 ";
    let script = read_script(rt.alloc(), text.as_bytes())?;
    let spelled = spelling(rt.alloc(), &script)?;
    assert!(rt; spelled.as_slice() == b"tree 1 1 4 1 1\nload 0 00ffabcd\ndo 0 read 0\n".as_slice());
    assert_eq!(rt; (script.tree_line, script.form_line), (3, None));
    assert_eq!(rt; (script.seal, script.reopen.is_none()), (false, true));
    let line = script.steps.as_slice().first().map(|step| step.line);
    assert_eq!(rt; line, Some(8));
    Ok(())
}

// faulty texts, with the line and the kind of the fault
static BREAKS: [(&str, u32, TextKind); 34] = [
    ("", 1, TextKind::Order),
    ("#\n\n", 3, TextKind::Order),
    ("#", 2, TextKind::Order),
    ("tree 1 1 4 1 1\n#\u{7f}\n", 2, TextKind::NotText),
    ("zzz\n\t\n", 1, TextKind::Word),
    ("tree 1 1 4 1 1\ntree\n", 2, TextKind::Word),
    ("tree 1 1 4 1 1\ntape\n", 2, TextKind::Word),
    ("tree 1 1 4 1 1\nform\n", 2, TextKind::Word),
    ("form 01\n", 1, TextKind::Word),
    ("seal 1\n", 1, TextKind::Word),
    ("op read 0\n", 1, TextKind::Word),
    ("get 0\n", 1, TextKind::Word),
    ("del 0\n", 1, TextKind::Word),
    ("tree 1 1 4 1 1\ndo 0 pad 0\n", 2, TextKind::Word),
    ("tree 1 1 4 1 1\ndo 0 read\n", 2, TextKind::Word),
    ("tree 1 1 4 1 1\nread 0 0 0\n", 2, TextKind::Word),
    ("tree 1 1 4 1 1\nack\n", 2, TextKind::Word),
    ("done +1\n", 1, TextKind::Number),
    ("do 064 write 9 xx\n", 1, TextKind::Number),
    ("do 64 write 9 xx\n", 1, TextKind::Hex),
    ("do 64 write 9 00\n", 1, TextKind::Order),
    ("tree 1 1 4 1 1\ndo 64 write 9 00\n", 2, TextKind::Length),
    (
        "tree 1 1 4 1 1\na 64 write 9 00000000\n",
        2,
        TextKind::Range,
    ),
    ("tree 16 8 4096 1 1\n", 1, TextKind::Range),
    ("tree 13 8 4088 1 1\nform 2\n", 2, TextKind::Range),
    ("tree 13 8 4088 1 1\ntape 0\nform 2\n", 3, TextKind::Range),
    ("tree 1 1 4 1 1\ntape 0\nform 2\n", 3, TextKind::Order),
    ("tree 1 1 4 1 1\nform 1\nform 1\n", 3, TextKind::Order),
    (
        "tree 1 1 4 1 1\ntape 0\nkey 0000000000000000000000000000000000000000000000000000000000000000\n",
        3,
        TextKind::Order,
    ),
    (
        "tree 1 1 4 1 1\nload 0 00000000\ntape 0\n",
        3,
        TextKind::Order,
    ),
    (
        "tree 1 1 4 2 1\nload 0 00000000\ntape 0\n",
        3,
        TextKind::Order,
    ),
    ("tree 1 1 4 2 1\nack 1\ntape 0\n", 3, TextKind::Order),
    ("tree 1 1 4 2 1\ntape 0\n", 2, TextKind::TapeShort),
    (
        "tree 1 1 4 1 1\ntape 0 0\na 0 pad\nread 0\ndo 0 pad\n",
        5,
        TextKind::TapeShort,
    ),
];

#[test]
fn breaks(rt: HostRuntime) -> Result<(), Fail> {
    for (text, line, kind) in &BREAKS {
        let fault = read_script(rt.alloc(), text.as_bytes()).err();
        let wanted = TextFault {
            line: *line,
            kind: *kind,
        };
        assert_eq!(rt; fault, Some(wanted), "at {text}");
    }
    Ok(())
}

#[test]
fn printed_lines(rt: HostRuntime) -> Result<(), Fail> {
    let alloc = rt.alloc();
    let mut out = Image::new(alloc);
    line_words(&mut out, "store", &[1, 18446744073709551615, 4, 0])?;
    line_words(&mut out, "scan", &[])?;
    let value = Block::from_slice(alloc, &[0, 255, 16, 171])?;
    line_hex(&mut out, "reply", &[3], &value)?;
    line_hex(&mut out, "none", &[], &Block::new(alloc))?;
    begin_line(&mut out, "arrive")?;
    push_numbers(&mut out, &[7, 63])?;
    push_word(&mut out, "write")?;
    push_number(&mut out, 5)?;
    push_hex(&mut out, &[97; 66])?;
    end_line(&mut out)?;
    let mut wanted = Image::new(alloc);
    wanted.extend_from_slice(
        b"store 1 18446744073709551615 4 0\nscan\nreply 3 00ff10ab\nnone \narrive 7 63 write 5 ",
    )?;
    for _ in 0..66 {
        wanted.extend_from_slice(b"61")?;
    }
    wanted.push(b'\n')?;
    assert!(rt; out.as_slice() == wanted.as_slice());
    Ok(())
}

#[test]
fn names_and_numbers_of_faults(rt: HostRuntime) -> Result<(), Fail> {
    let fault = TextFault {
        line: 3,
        kind: TextKind::TapeShort,
    };
    assert_eq!(rt;
        format!(in rt.alloc(); "{fault}")?.as_str(),
        "line 3: TapeShort"
    );
    let kinds = [
        TextKind::NotText as u8,
        TextKind::Word as u8,
        TextKind::Number as u8,
        TextKind::Hex as u8,
        TextKind::Length as u8,
        TextKind::Range as u8,
        TextKind::Order as u8,
        TextKind::TapeShort as u8,
        TextKind::TooLong as u8,
        TextKind::Memory as u8,
    ];
    assert_eq!(rt;
        kinds.as_slice(),
        [1, 2, 3, 4, 5, 6, 7, 8, 9, 10].as_slice()
    );
    Ok(())
}

#[test]
fn lines_and_words(rt: HostRuntime) {
    let (line, rest) = next_line(b"  ack  7\n\nz").unwrap_or((b"", b""));
    assert!(rt; line == b"  ack  7".as_slice() && rest == b"\nz".as_slice());
    assert_eq!(rt; next_line(rest), Some((b"".as_slice(), b"z".as_slice())));
    assert_eq!(rt; next_line(b""), None);
    let (word, rest) = next_word(line).unwrap_or((b"", b""));
    assert!(rt; word == b"ack".as_slice() && rest == b" 7".as_slice());
    assert_eq!(rt; no_more_words(rest), Err(TextKind::Word));
    assert_eq!(rt; no_more_words(b"  "), Ok(()));
    assert_eq!(rt; next_word(b"  "), Err(TextKind::Word));
}

#[test]
fn numbers_and_hex(rt: HostRuntime) {
    assert_eq!(rt; number_of(b"4294967295"), Ok(4294967295));
    assert_eq!(rt; number_of(b"4294967296"), Err(TextKind::Number));
    assert_eq!(rt;
        wide_number(b"18446744073709551615"),
        Some(18446744073709551615)
    );
    assert_eq!(rt; wide_number(b"18446744073709551616"), None);
    assert!(rt; is_text(b" az~") && !is_text(b"a\tz"));
    for (word, wanted) in [("", true), ("09afAF", true), ("abc", false), ("0g", false)] {
        assert!(rt; is_hex(word.as_bytes()) == wanted, "at {word}");
    }
}
