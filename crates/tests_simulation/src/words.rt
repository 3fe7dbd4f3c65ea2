//! The words of texts: numbers, tables and fields, read as the readers of lines and entries do.

use aim_messages::{LineKind, Message, Turn, write_message};
use aim_text_words::fields::{choice, message, number8, numbers, turn};
use aim_text_words::forms::{
    MessageForm, OrderForm, followed_form, in_window, message_form, message_size, order_form,
};
use aim_text_words::numbers::{begins_with_digit, number};
use aim_text_words::tables::look_up;
use aim_text_words::words::Words;

// Words, whether they begin with a digit, and the number from 1 to 255 that they spell.
static NUMBERS: [(&[u8], bool, Result<u64, LineKind>); 7] = [
    (b"", false, Err(LineKind::Number)),
    (b"+7", false, Err(LineKind::Number)),
    (b"07", true, Err(LineKind::Number)),
    (b"0", true, Err(LineKind::Range)),
    (b"1", true, Ok(1)),
    (b"255", true, Ok(255)),
    (b"256", true, Err(LineKind::Range)),
];

#[test]
fn numbers_from_1_to_255(rt: HostRuntime) {
    for (word, is_begun, want) in &NUMBERS {
        assert!(rt; begins_with_digit(word) == *is_begun);
        assert!(rt; number(word, 1, 255) == *want);
    }
}

static RANKS: [(&[u8], u32); 3] = [(b"low", 0), (b"high", 2), (b"high", 3)];

#[test]
fn words_are_looked_up(rt: HostRuntime) {
    assert!(rt; look_up(&RANKS, LineKind::Unknown, b"high") == Ok(2));
    assert!(rt; look_up(&RANKS, LineKind::Unknown, b"hig") == Err(LineKind::Unknown));
    assert!(rt; matches!(order_form(b"stop"), Ok(OrderForm::Stop)));
    assert!(rt; matches!(in_window(MessageForm::Done), MessageForm::Done));
}

// The lane behind that word, two numbers and a rank, where there is a left turn behind the lane.
fn fields(words: &mut Words<'_>) -> Result<[u32; 4], LineKind> {
    words.keyword(b"lane")?;
    let lane = number8(words)?;
    if turn(words)? != Turn::Left {
        return Err(LineKind::Unknown);
    }
    let [first, second] = numbers::<2>(words)?;
    let rank = choice(words, &RANKS)?;
    Ok([u32::from(lane), first, second, rank])
}

// Two spaces have an empty word between them.
#[test]
fn words_come_in_turn(rt: HostRuntime) {
    let mut words = Words::new(b"lane 255 left 4294967295 7 low a  b");
    assert!(rt; words.ahead(1) == b"255".as_slice() && words.ahead(9).is_empty());
    assert!(rt; fields(&mut words) == Ok([255, 4_294_967_295, 7, 0]));
    assert!(rt; words.take() == b"a".as_slice());
    assert!(rt; words.next().expect(&rt, "no word").is_empty());
    assert!(rt; words.end() == Err(LineKind::Words));
    assert!(rt; words.end() == Ok(()));
}

static MESSAGES: [&[u8]; 6] = [
    b"request 1 255 straight 10 500 501 9 1000 700 car",
    b"request 1 255 straight 10 500 501 9 1000 700 car 11",
    b"change 2 0 1 left 12 500 1000 250 1000 700 emergency",
    b"change 2 0 1 left 12 500 1000 250 1000 700 emergency 4294967295",
    b"cancel 4294967295 9",
    b"done 3 0",
];

// The message that the text spells.
fn message_of(text: &[u8]) -> Result<Message, LineKind> {
    let mut words = Words::new(text);
    let form = message_form(words.take())?;
    let form = followed_form(form, words.ahead(message_size(form)));
    let message = message(&mut words, form)?;
    words.end()?;
    Ok(message)
}

#[test]
fn messages_come_back(rt: HostRuntime) {
    let mut out = Vec::new(rt.alloc());
    for text in &MESSAGES {
        out.clear();
        let message = message_of(text).expect(&rt, "no message");
        assert!(rt; write_message(&message, &mut out).is_ok());
        assert!(rt; out.as_slice() == *text);
    }
}
