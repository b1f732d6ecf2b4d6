// The words of a script: its lines, and the command that a line is.
#![tactic(auto)]

ghost use Rattle.std.specs.Prelude.{◌≡◌, [], ◌∷◌};
ghost use Rattle.std.specs.Iterator.{YieldsFirstRef, item_count};
ghost use Rattle.paper.specs.Replay.{pieces, is_word, line_call};
ghost use Rattle.words.specs.Fields.{digits_from, handle_in};
ghost use Rattle.words.specs.Lines.{lines_in};
ghost use Rattle.words.specs.Commands.{call_of, Within, places, lone_call, handled_call};

// ---- lines

// The lines of a script that are left to read, each without its LF: 'lines end in LF, the last may lack it'.
#[derive(Clone, Copy, Debug)]
pub struct Lines<'a> {
    pub rest: &'a [u8],
}

impl<'a> Iterator for Lines<'a> {
    type Item = &'a [u8];

    ghost next_gives = { YieldsFirstRef (λ s. lines_in s.rest.now) };

    ghost remaining = { item_count (λ s. lines_in s.rest.now) };

    fn next(&mut self) -> Option<&'a [u8]> {
        if self.rest.is_empty() {
            return None;
        }
        let rest = self.rest;
        match rest.iter().position(|b| *b == b'\n') {
            Some(end) => {
                self.rest = &rest[end + 1..];
                Some(&rest[..end])
            }
            None => {
                self.rest = &[];
                Some(rest)
            }
        }
    }
}

// ---- commands

// '`b`; `g H key`; `p H key value`; `d H key`; `f H key`, the first pair above that key, `-` for unbounded; `c H`; `e H`; `z` freezes'.
#[derive(Clone, Copy, Debug, PartialEq, Eq)]
pub enum Command<'a> {
    Begin,
    Get {
        handle: u64,
        key: &'a [u8],
    },
    Put {
        handle: u64,
        key: &'a [u8],
        value: &'a [u8],
    },
    Delete {
        handle: u64,
        key: &'a [u8],
    },
    First {
        handle: u64,
    },
    Above {
        handle: u64,
        key: &'a [u8],
    },
    Commit {
        handle: u64,
    },
    End {
        handle: u64,
    },
    Freeze,
}

// The number that digits make, where they are digits and the number fits 64 bits. std's `parse` reads text, and would take a sign in front.
fn digits(s: &[u8]) -> Option<u64>
    ensures { result ≡ digits_from 0 s.now }
{
    let mut n: u64 = 0;
    for &b in s {
        if !b.is_ascii_digit() {
            return None;
        }
        n = n.checked_mul(10)?.checked_add(u64::from(b - b'0'))?;
    }
    Some(n)
}

// 'H decimal, 0 to 2^64-1, no leading zero'
fn handle_in(s: &[u8]) -> Option<u64>
    ensures { result ≡ handle_in s.now }
{
    if s.is_empty() || (s.len() > 1 && s[0] == b'0') {
        return None;
    }
    digits(s)
}

// 'keys and values 1 to 16 ASCII letters or digits'
fn is_word(s: &[u8]) -> bool
    ensures { result ≡ is_word s.now }
{
    !s.is_empty() && s.len() <= 16 && s.iter().all(|b| b.is_ascii_alphanumeric())
}

// A letter alone.
fn alone<'a>(letter: u8) -> Option<Command<'a>>
    ensures { call_of result ≡ lone_call letter }
{
    match letter {
        b'b' => Some(Command::Begin),
        b'z' => Some(Command::Freeze),
        _ => None,
    }
}

// A letter and a handle.
fn with_handle<'a>(letter: u8, handle: u64) -> Option<Command<'a>>
    ensures { call_of result ≡ handled_call letter handle [] }
{
    match letter {
        b'c' => Some(Command::Commit { handle }),
        b'e' => Some(Command::End { handle }),
        _ => None,
    }
}

// A letter, a handle and a key.
fn with_key(letter: u8, handle: u64, key: &[u8]) -> Option<Command<'_>>
    ensures { call_of result ≡ handled_call letter handle (key.now ∷ []) }
{
    if key == b"-".as_slice() {
        return (letter == b'f').then_some(Command::First { handle });
    }
    if !is_word(key) {
        return None;
    }
    match letter {
        b'g' => Some(Command::Get { handle, key }),
        b'd' => Some(Command::Delete { handle, key }),
        b'f' => Some(Command::Above { handle, key }),
        _ => None,
    }
}

// A letter, a handle, a key and a value.
fn with_value<'a>(letter: u8, handle: u64, key: &'a [u8], value: &'a [u8]) -> Option<Command<'a>>
    ensures { call_of result ≡ handled_call letter handle (key.now ∷ value.now ∷ []) }
{
    (letter == b'p' && is_word(key) && is_word(value)).then_some(Command::Put {
        handle,
        key,
        value,
    })
}

// The command of a line without its LF, where there is one. Its key and value lie within the line, each at its place.
pub fn understood(line: &[u8]) -> Option<Command<'_>>
    ensures { (call_of result ≡ line_call (pieces 32 line.now)) × Within line.now result (places line.now result) }
{
    let mut fields = line.split(|b| *b == b' ');
    let letter = fields.next()?;
    // A slice pattern's other arm would say too little of the slice.
    if letter.len() != 1 {
        return None;
    }
    let letter = letter[0];
    let Some(handle) = fields.next() else {
        return alone(letter);
    };
    let handle = handle_in(handle)?;
    let Some(key) = fields.next() else {
        return with_handle(letter, handle);
    };
    let Some(value) = fields.next() else {
        return with_key(letter, handle, key);
    };
    if fields.next().is_some() {
        return None;
    }
    with_value(letter, handle, key, value)
}
