//! Keys by which takings are found. Only the first parts of a token go into its key, and few levels
//! deep, so a large token isn't gone through. No clause speaks of them: a taking that has the key
//! is compared with the one that is looked for (`docs/SEARCH.md`, 'A binding grows by decisions').
use crate::taking::Taking;
use rn_value::{InstRef, Value};

/// How deep lists and tuples go into a key.
const DEEP: usize = 3;

/// How many of the first parts of one do, and how many of the first and of the last bytes of a text.
const WIDE: usize = 16;

// One more number goes into a key.
fn stirred(key: usize, n: usize) -> usize {
    key.wrapping_mul(16777619).wrapping_add(n)
}

// The first and the last bytes of a text go into a key.
fn with_bytes(key: usize, bytes: &[u8]) -> usize {
    let mut key = stirred(key, bytes.len());
    for i in 0..bytes.len().min(WIDE) {
        key = stirred(key, bytes[i] as usize);
        key = stirred(key, bytes[bytes.len() - 1 - i] as usize);
    }
    key
}

// An instance goes into a key.
fn with_inst(key: usize, inst: &InstRef) -> usize {
    match inst {
        InstRef::Old(number) => stirred(key, *number as usize),
        InstRef::New(_, j) => stirred(key, *j as usize),
    }
}

// The first values of some go into a key.
#[cycle(token)]
fn with_all(values: &[Value], key: usize, deep: usize) -> usize {
    let mut key = stirred(key, values.len());
    if deep == 0 {
        return key;
    }
    for i in 0..values.len().min(WIDE) {
        key = with_value(&values[i], key, deep - 1);
    }
    key
}

// A value goes into a key.
#[cycle(token)]
fn with_value(value: &Value, key: usize, deep: usize) -> usize {
    match value {
        Value::Int(n) => stirred(key, n.unsigned_abs() as usize),
        Value::Text(text) => with_bytes(key, text.as_str().as_bytes()),
        Value::Tuple(parts) => with_all(parts.as_slice(), key, deep),
        Value::List(parts) => with_all(parts.as_slice(), key, deep),
        Value::Inst(inst) => with_inst(key, inst),
    }
}

/// The key of a taking: of its instance, its place and its token.
pub(crate) fn key_of(taking: &Taking<'_>) -> usize {
    let place = stirred(with_inst(1, taking.inst), taking.place as usize);
    with_value(taking.token, place, DEEP)
}
