// Which command a line is, by its first field.
ghost use Rattle.std.specs.Prelude.{◌≡◌};
ghost use Rattle.commands.specs.Command.{apart, giving_key, setting_up, speaking, with_receiver, command_of};

use super::setting::Item;
use text::field;

#[derive(Clone, Copy)]
pub(crate) enum Command {
    // One of the lines that lead to `setup`.
    Give(Item),
    SetUp,
    // One of the lines that need a receiver.
    Order(Order),
    // A property is named.
    Property,
    // All names are forgotten.
    Forget,
    // The readings of a message are asked for.
    Readings,
    // PDUs are vetted.
    Vet,
    // No command.
    Unknown,
}

// What is asked where there is a receiver.
#[derive(Clone, Copy)]
pub(crate) enum Order {
    Hear,
    Access,
    Control,
    Segment,
    Ack,
    Stop,
    Drop,
    Room,
    Show,
}

// The command of a line. Where there is no receiver yet, only the lines that set one up and those that have nothing to do with one are commands.
#[tactic(auto, unfolding(crate::specs::Command::command_of))]
pub(crate) fn of(line: &[u8], ready: bool) -> Command
    ensures { result ≡ command_of line.now ready }
{
    let word = field::nth(line, 0);
    if ready {
        return with_receiver(line, word);
    }
    setting_up(line, word)
}

// The words are compared one after another and not by a `match` on octets: each is a clause of its own in the definition, in this order.
// The words that need a receiver, and all others. A command that has no field besides its word is the whole line.
#[tactic(auto, unfolding(crate::specs::Command::with_receiver))]
fn with_receiver(line: &[u8], word: &[u8]) -> Command
    ensures { result ≡ with_receiver line.now word.now }
{
    if common::equal(word, b"room") {
        return Command::Order(Order::Room);
    }
    if common::equal(word, b"hear") {
        return Command::Order(Order::Hear);
    }
    if common::equal(line, b"stop") {
        return Command::Order(Order::Stop);
    }
    if common::equal(word, b"drop") {
        return Command::Order(Order::Drop);
    }
    if common::equal(line, b"show") {
        return Command::Order(Order::Show);
    }
    speaking(line, word)
}

// The words that send, and those that need no receiver.
#[tactic(auto, unfolding(crate::specs::Command::speaking))]
fn speaking(line: &[u8], word: &[u8]) -> Command
    ensures { result ≡ speaking line.now word.now }
{
    if common::equal(word, b"access") {
        return Command::Order(Order::Access);
    }
    if common::equal(word, b"control") {
        return Command::Order(Order::Control);
    }
    if common::equal(word, b"segment") {
        return Command::Order(Order::Segment);
    }
    if common::equal(word, b"ack") {
        return Command::Order(Order::Ack);
    }
    setting_up(line, word)
}

// The words that lead to a receiver, and those that have nothing to do with one.
#[tactic(auto, unfolding(crate::specs::Command::setting_up))]
fn setting_up(line: &[u8], word: &[u8]) -> Command
    ensures { result ≡ setting_up line.now word.now }
{
    if common::equal(word, b"elements") {
        return Command::Give(Item::Elements);
    }
    if common::equal(word, b"group") {
        return Command::Give(Item::Group);
    }
    if common::equal(word, b"ivindex") {
        return Command::Give(Item::IvIndex);
    }
    if common::equal(word, b"relay") {
        return Command::Give(Item::Relay);
    }
    if common::equal(line, b"setup") {
        return Command::SetUp;
    }
    giving_key(line, word)
}

// The words that give a key or a label, and those that have nothing to do with a receiver.
#[tactic(auto, unfolding(crate::specs::Command::giving_key))]
fn giving_key(line: &[u8], word: &[u8]) -> Command
    ensures { result ≡ giving_key line.now word.now }
{
    if common::equal(word, b"netkey") {
        return Command::Give(Item::NetKey);
    }
    if common::equal(word, b"appkey") {
        return Command::Give(Item::AppKey);
    }
    if common::equal(word, b"devkey") {
        return Command::Give(Item::DevKey);
    }
    if common::equal(word, b"label") {
        return Command::Give(Item::Label);
    }
    apart(line, word)
}

// The words that have nothing to do with a receiver: those that read what sensors say, and `vet`.
#[tactic(auto, unfolding(crate::specs::Command::apart))]
fn apart(line: &[u8], word: &[u8]) -> Command
    ensures { result ≡ apart line.now word.now }
{
    if common::equal(word, b"property") {
        return Command::Property;
    }
    if common::equal(line, b"properties") {
        return Command::Forget;
    }
    if common::equal(word, b"readings") {
        return Command::Readings;
    }
    if common::equal(word, b"vet") {
        return Command::Vet;
    }
    Command::Unknown
}
