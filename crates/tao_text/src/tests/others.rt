//! Twin inputs, operation lists and block files.
use crate::tests::{spell_op, spelling};
use crate::{
    TextFault, TextKind, Twins, begin_line, end_line, line_hex, read_ops, read_script, read_store,
    read_twin,
};
use std::alloc::Global;
use std::test::Fail;
use tao_base::{Image, NoMemory};

// twin inputs with each kind of line, as they are printed
static TWINS: [&str; 3] = [
    "tree 2 2 4 4 4\ntape 0 1 2 3 3 2 1 0\na 0 read 0\na 1 read 0\na 2 read 0\na 3 read 0\nread 0\ndone 0\nread 1\ndone 1\nread 2\ndone 2\nread 3\ndone 3\ntwin\nop read 0\nop read 1\nop read 2\nop read 3\n",
    "tree 1 1 4 2 1\nform 2\nload 1 61616161\ndo 0 pad\na 63 read 1\nput 1 3\nack 1\ntwin\nload 0 62626262\nload 1 63636363\nop write 1 64646464\nop pad\n",
    "tree 1 1 4 1 1\ntwin\n",
];

#[test]
fn twins(rt: HostRuntime) -> Result<(), Fail> {
    for text in &TWINS {
        let twins = read_twin(rt.alloc(), text.as_bytes())?;
        let spelled = spell_twins(rt.alloc(), &twins)?;
        assert!(rt; spelled.as_slice() == text.as_bytes(), "at {text}");
    }
    let loose = "tree 1 1 4 1 1\ndo 0 pad\n twin \n# the second play\n\n  op  read  0";
    let twins = read_twin(rt.alloc(), loose.as_bytes())?;
    let spelled = spell_twins(rt.alloc(), &twins)?;
    assert!(rt; spelled.as_slice() == b"tree 1 1 4 1 1\ndo 0 pad\ntwin\nop read 0\n".as_slice());
    Ok(())
}

// Prints a twin input as a text.
fn spell_twins(alloc: Global, twins: &Twins) -> Result<Image, NoMemory> {
    let mut out = spelling(alloc, &twins.first)?;
    out.extend_from_slice(b"twin\n")?;
    for load in twins.loads.as_slice() {
        line_hex(&mut out, "load", &[u64::from(load.id)], &load.value)?;
    }
    for op in twins.ops.as_slice() {
        begin_line(&mut out, "op")?;
        spell_op(&mut out, op)?;
        end_line(&mut out)?;
    }
    Ok(out)
}

#[test]
fn operation_lists(rt: HostRuntime) -> Result<(), Fail> {
    for text in [
        "tree 1 1 4 1 3\ntape 1 0 1 0\na 0 read 0\na 0 write 0 61616161\na 63 pad\n",
        "tree 1 1 4 2 1\nform turn\nload 1 61616161\n",
    ] {
        let script = read_ops(rt.alloc(), text.as_bytes())?;
        assert!(rt;
            spelling(rt.alloc(), &script)?.as_slice() == text.as_bytes(),
            "at {text}"
        );
    }
    Ok(())
}

#[test]
fn block_files(rt: HostRuntime) -> Result<(), Fail> {
    for text in [
        "tree 1 1 4 1 1\n",
        "tree 1 1 4 2 1\nform 2\nkey 000102030405060708090a0b0c0d0e0f101112131415161718191a1b1c1d1e1f\nload 0 61616161\nload 1 62626262\n",
    ] {
        let script = read_store(rt.alloc(), text.as_bytes())?;
        assert!(rt;
            spelling(rt.alloc(), &script)?.as_slice() == text.as_bytes(),
            "at {text}"
        );
    }
    Ok(())
}

// faulty twin inputs, with the line and the kind of the fault
static TWIN_BREAKS: [(&str, u32, TextKind); 34] = [
    ("tree 1 1 4 1 1\ntwin\n\u{7f}\n", 3, TextKind::NotText),
    ("tree 1 1 4 1 1\ntwin 1\n", 2, TextKind::Word),
    ("tree 1 1 4 1 1\ntwin\nop\n", 3, TextKind::Word),
    ("op 0 read 0\n", 1, TextKind::Word),
    ("op pad 0\n", 1, TextKind::Word),
    ("tree 1 1 4 1 1\ntwin\nget 0\n", 3, TextKind::Word),
    ("tree 1 1 4 1 1\nop read 00\n", 2, TextKind::Number),
    ("op write 4294967296 0\n", 1, TextKind::Number),
    ("op write 9 0\n", 1, TextKind::Hex),
    ("tree 1 1 4 1 1\nop write 9 00\n", 2, TextKind::Length),
    (
        "tree 1 1 4 1 1\ntwin\ndo 64 write 9 00\n",
        3,
        TextKind::Length,
    ),
    ("tree 1 1 4 1 1\nop write 1 00000000\n", 2, TextKind::Range),
    ("tree 1 1 4 1 1\ntwin\nop read 1\n", 3, TextKind::Range),
    ("tree 1 1 4 1 1\ntwin\nread 0 2\n", 3, TextKind::Range),
    (
        "tree 1 1 4 1 1\ntwin\ntree 17 1 4 1 1\n",
        3,
        TextKind::Range,
    ),
    ("twin\n", 1, TextKind::Order),
    ("op pad\n", 1, TextKind::Order),
    ("tree 1 1 4 1 1\nop pad\n", 2, TextKind::Order),
    ("tree 1 1 4 1 1\ndo 0 pad\nop pad\n", 3, TextKind::Order),
    ("tree 1 1 4 1 1\nseal\ntwin\n", 2, TextKind::Order),
    ("tree 1 1 4 1 1\nreopen 00\ntwin\n", 2, TextKind::Order),
    ("tree 1 1 4 1 1\ntwin\ntwin\n", 3, TextKind::Order),
    ("tree 1 1 4 1 1\ntwin\nform 1\n", 3, TextKind::Order),
    ("tree 1 1 4 1 1\ntwin\ntape 0\n", 3, TextKind::Order),
    ("tree 1 1 4 1 1\ntwin\ndo 0 pad\n", 3, TextKind::Order),
    ("tree 1 1 4 1 1\ntwin\nack 1\n", 3, TextKind::Order),
    (
        "tree 1 1 4 2 1\ntwin\nload 1 00000000\nload 1 00000000\n",
        4,
        TextKind::Order,
    ),
    (
        "tree 1 1 4 1 1\ndo 0 pad\ntwin\nop pad\nload 0 00000000\n",
        5,
        TextKind::Order,
    ),
    ("tree 1 1 4 1 1\ntwin\nop pad\n", 3, TextKind::Order),
    (
        "tree 1 1 4 1 1\ndo 0 pad\ntwin\nop pad\nop pad\nzzz\n",
        5,
        TextKind::Order,
    ),
    ("tree 1 1 4 1 1\ndo 0 pad\ntwin\n#", 5, TextKind::Order),
    ("tree 1 1 4 1 1\n", 2, TextKind::Order),
    ("#\n\n", 3, TextKind::Order),
    (
        "tree 1 1 4 1 1\ntape 0 0\na 0 pad\na 0 pad\ntwin\n",
        4,
        TextKind::TapeShort,
    ),
];

// faulty operation lists
static OPS_BREAKS: [(&str, u32, TextKind); 22] = [
    ("tree 1 1 4 1 1\n#\t\n", 2, TextKind::NotText),
    ("twin\n", 1, TextKind::Word),
    ("tree 1 1 4 1 1\nop read 0\n", 2, TextKind::Word),
    ("do 0 read 00\n", 1, TextKind::Number),
    ("tree 1 1 4 1 1\ndo 0 write 0 0\n", 2, TextKind::Hex),
    ("tree 1 1 4 1 1\ndo 0 write 0 00\n", 2, TextKind::Length),
    ("tree 1 1 4 1 1\ndo 64 pad\n", 2, TextKind::Range),
    ("tree 1 1 4 1 1\nput 1 4\n", 2, TextKind::Range),
    ("tree 1 1 4 1 1\ndo 0 pad\n", 2, TextKind::Order),
    ("tree 1 1 4 1 1\na 0 pad\nread 0\n", 3, TextKind::Order),
    ("tree 1 1 4 1 1\nread 0 1\n", 2, TextKind::Order),
    ("tree 1 1 4 1 1\ndone 0\n", 2, TextKind::Order),
    ("tree 1 1 4 1 1\nput 1\n", 2, TextKind::Order),
    ("tree 1 1 4 1 1\nput 1 1\n", 2, TextKind::Order),
    ("tree 1 1 4 1 1\nack 1\n", 2, TextKind::Order),
    ("tree 1 1 4 1 1\nseal\n", 2, TextKind::Order),
    ("tree 1 1 4 1 1\nreopen 00\n", 2, TextKind::Order),
    (
        "tree 1 1 4 1 1\na 0 pad\nload 0 00000000\n",
        3,
        TextKind::Order,
    ),
    ("tree 1 1 4 1 1\ntape 0\ndo 0 pad\n", 3, TextKind::Order),
    ("", 1, TextKind::Order),
    ("tree 1 1 4 1 1\ntape 0\na 0 pad\n", 3, TextKind::TapeShort),
    ("tree 1 1 4 2 1\ntape 0\n", 2, TextKind::TapeShort),
];

// faulty block files
static STORE_BREAKS: [(&str, u32, TextKind); 19] = [
    ("\u{80}\n", 1, TextKind::NotText),
    ("twin\n", 1, TextKind::Word),
    ("op pad\n", 1, TextKind::Word),
    ("tree 1 1 4 1 1\ntape\n", 2, TextKind::Word),
    ("tree 1 1 4 1 1\ntape -1\n", 2, TextKind::Number),
    ("load 0 x\n", 1, TextKind::Hex),
    ("tree 1 1 4 1 1\nkey 00\n", 2, TextKind::Length),
    ("tree 1 1 4 1 1\na 64 write 0 00\n", 2, TextKind::Length),
    ("tree 1 1 4 1 1\nload 1 00000000\n", 2, TextKind::Range),
    ("tree 1 1 4 1 1\na 64 pad\n", 2, TextKind::Range),
    ("tree 1 1 4 2 1\ntape 0\n", 2, TextKind::Order),
    ("tree 1 1 4 1 1\ntape 0 0\n", 2, TextKind::Order),
    ("tree 1 1 4 1 1\na 0 pad\n", 2, TextKind::Order),
    ("tree 1 1 4 1 1\ndo 0 pad\n", 2, TextKind::Order),
    ("tree 1 1 4 1 1\nack 1\n", 2, TextKind::Order),
    ("tree 1 1 4 1 1\nseal\n", 2, TextKind::Order),
    ("tree 1 1 4 1 1\nreopen 00\n", 2, TextKind::Order),
    (
        "tree 1 1 4 2 1\nload 1 00000000\nload 0 00000000\n",
        3,
        TextKind::Order,
    ),
    ("#\n", 2, TextKind::Order),
];

#[test]
fn other_breaks(rt: HostRuntime) -> Result<(), Fail> {
    for (text, line, kind) in &TWIN_BREAKS {
        let fault = read_twin(rt.alloc(), text.as_bytes()).err();
        assert_eq!(rt; fault, Some(at(*line, *kind)), "at {text}");
    }
    for (text, line, kind) in &OPS_BREAKS {
        let fault = read_ops(rt.alloc(), text.as_bytes()).err();
        assert_eq!(rt; fault, Some(at(*line, *kind)), "at {text}");
    }
    for (text, line, kind) in &STORE_BREAKS {
        let fault = read_store(rt.alloc(), text.as_bytes()).err();
        assert_eq!(rt; fault, Some(at(*line, *kind)), "at {text}");
    }
    Ok(())
}

fn at(line: u32, kind: TextKind) -> TextFault {
    TextFault { line, kind }
}

// A session may have 2,340 arrivals under these parameters, a script any number.
#[test]
fn arrivals_past_the_limit(rt: HostRuntime) -> Result<(), Fail> {
    let mut text = Image::new(rt.alloc());
    text.extend_from_slice(b"tree 13 8 4088 1 1\n")?;
    for _ in 0..2_340 {
        text.extend_from_slice(b"a 0 pad\n")?;
    }
    let all = text.as_slice().len();
    text.extend_from_slice(b"a 0 pad\ntwin\n")?;
    let fault = read_twin(rt.alloc(), text.as_slice()).err();
    assert_eq!(rt; fault, Some(at(2_342, TextKind::Range)));
    assert!(rt; read_ops(rt.alloc(), &text.as_slice()[..all + 8]).is_ok());
    text.truncate(all);
    text.extend_from_slice(b"twin\na 0 pad\n")?;
    assert!(rt; read_script(rt.alloc(), &text.as_slice()[..all]).is_ok());
    let fault = read_twin(rt.alloc(), text.as_slice()).err();
    assert_eq!(rt; fault, Some(at(2_343, TextKind::Range)));
    Ok(())
}

#[test]
fn texts_of_too_many_bytes(rt: HostRuntime) -> Result<(), Fail> {
    let mut text = Image::new(rt.alloc());
    for _ in 0..1 << 14 {
        text.extend_from_slice(&[b'#'; 1 << 10])?;
    }
    text.push(b'#')?;
    let too_long = Some(at(0, TextKind::TooLong));
    assert_eq!(rt; read_script(rt.alloc(), text.as_slice()).err(), too_long);
    assert_eq!(rt; read_twin(rt.alloc(), text.as_slice()).err(), too_long);
    assert_eq!(rt; read_ops(rt.alloc(), text.as_slice()).err(), too_long);
    assert_eq!(rt; read_store(rt.alloc(), text.as_slice()).err(), too_long);
    text.truncate(1 << 24);
    let empty = Some(at(2, TextKind::Order));
    assert_eq!(rt; read_store(rt.alloc(), text.as_slice()).err(), empty);
    Ok(())
}
