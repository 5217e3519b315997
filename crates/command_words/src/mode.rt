//! The modes, and the arguments that name them.
ghost use Rattle.std.specs.Prelude.{◌≡◌};
ghost use Rattle.command_words.specs.Words.{exercise_mode, name_of, plain_mode, why_mode};

use world_text::number_in;

/// The most commands of an exercise.
const MOST_COMMANDS: u32 = 1_000_000;

/// What the program has to do.
#[derive(Clone, Copy, Debug, PartialEq, Eq)]
pub enum Mode {
    /// Run the commands after a world.
    Replay,

    /// Run a generated input, and count its replies.
    Exercise {
        /// The number from which the input is generated: 0 to 4,294,967,295.
        number: u32,
        /// The number of generated commands: 0 to 1,000,000.
        count: u32,
    },

    /// Answer what is requested about a file.
    OfFile(FileMode),
}

/// What is requested about a file: about a world file, or a text of S-expressions.
#[derive(Clone, Copy, Debug, PartialEq, Eq)]
pub enum FileMode {
    /// Why an object of a world file is held.
    Why {
        /// The object's number in the file: 0 to 4,294,967,295.
        object: u32,
    },

    /// How many objects of each kind a world file has, and how many of them are reachable.
    Census,

    /// The world of a world file as S-expressions.
    Print,

    /// The dump of the world that a text of S-expressions means.
    Compile,
}

/// The argument that names a mode.
#[derive(Clone, Copy, Debug, PartialEq, Eq)]
pub enum ModeName {
    Replay,
    Exercise,
    Print,
    Compile,
    Why,
    Census,
}

/// The mode name that this argument is.
pub fn name_of(word: &[u8]) -> Option<ModeName>
    ensures { result ≡ name_of word.now }
{
    if word == b"replay".as_slice() {
        return Some(ModeName::Replay);
    }
    if word == b"exercise".as_slice() {
        return Some(ModeName::Exercise);
    }
    if word == b"print".as_slice() {
        return Some(ModeName::Print);
    }
    if word == b"compile".as_slice() {
        return Some(ModeName::Compile);
    }
    if word == b"why".as_slice() {
        return Some(ModeName::Why);
    }
    if word == b"census".as_slice() {
        return Some(ModeName::Census);
    }
    None
}

/// The mode of this name, if no option is given.
pub fn plain_mode(name: ModeName) -> Option<Mode>
    ensures { result ≡ plain_mode name }
{
    match name {
        ModeName::Replay => Some(Mode::Replay),
        ModeName::Print => Some(Mode::OfFile(FileMode::Print)),
        ModeName::Compile => Some(Mode::OfFile(FileMode::Compile)),
        ModeName::Census => Some(Mode::OfFile(FileMode::Census)),
        ModeName::Exercise | ModeName::Why => None,
    }
}

/// `why` of the object with the number in this text.
pub fn why_mode(object: &[u8]) -> Option<Mode>
    ensures { result ≡ why_mode object.now }
{
    let object = number_in(0, u32::MAX, object)?;
    Some(Mode::OfFile(FileMode::Why { object }))
}

/// `exercise` with the number and the count in these texts.
pub fn exercise_mode(number: &[u8], count: &[u8]) -> Option<Mode>
    ensures { result ≡ exercise_mode number.now count.now }
{
    let number = number_in(0, u32::MAX, number)?;
    let count = number_in(0, MOST_COMMANDS, count)?;
    Some(Mode::Exercise { number, count })
}
