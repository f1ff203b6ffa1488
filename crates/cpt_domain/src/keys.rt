//! The words that begin the parts of a domain.

ghost use Rattle.std.specs.Prelude.{◌≡◌};
ghost use Rattle.cpt_domain.specs.Reading.{is_seen, is_untaken, key_of, unseen, with_section};

use cpt_pddl::is_word;

/// A section that declares something.
#[derive(Clone, Copy)]
pub enum Section {
    Requirements,
    Types,
    Constants,
    Predicates,
    Functions,
}

/// What a word says where it begins a part of a domain.
#[derive(Clone, Copy)]
pub enum Key {
    /// A section.
    Section(Section),
    /// An action; whether it is durative.
    Action(bool),
    /// A section that is not taken.
    Untaken,
    /// Any other word.
    Other,
}

/// Which sections stood.
#[derive(Clone, Copy)]
pub struct Seen {
    pub requirements: bool,
    pub types: bool,
    pub constants: bool,
    pub predicates: bool,
    pub functions: bool,
}

fn is_untaken(bytes: &[u8]) -> bool
    ensures { result ≡ is_untaken bytes.now }
{
    is_word(bytes, ":derived")
        || is_word(bytes, ":constraints")
        || is_word(bytes, ":process")
        || is_word(bytes, ":event")
}

/// What the word says where it begins a part of a domain.
#[tactic(auto, unfolding(crate::specs::Reading::key_of))]
pub fn key_of(bytes: &[u8]) -> Key
    ensures { result ≡ key_of bytes.now }
{
    if is_word(bytes, ":requirements") {
        Key::Section(Section::Requirements)
    } else if is_word(bytes, ":types") {
        Key::Section(Section::Types)
    } else if is_word(bytes, ":constants") {
        Key::Section(Section::Constants)
    } else if is_word(bytes, ":predicates") {
        Key::Section(Section::Predicates)
    } else if is_word(bytes, ":functions") {
        Key::Section(Section::Functions)
    } else if is_word(bytes, ":action") {
        Key::Action(false)
    } else if is_word(bytes, ":durative-action") {
        Key::Action(true)
    } else if is_untaken(bytes) {
        Key::Untaken
    } else {
        Key::Other
    }
}

impl Seen {
    /// No section stood.
    pub fn new() -> Seen
        ensures { result ≡ unseen }
    {
        Seen {
            requirements: false,
            types: false,
            constants: false,
            predicates: false,
            functions: false,
        }
    }

    /// Whether the section stood.
    pub fn has(self, section: Section) -> bool
        ensures { result ≡ is_seen self section }
    {
        match section {
            Section::Requirements => self.requirements,
            Section::Types => self.types,
            Section::Constants => self.constants,
            Section::Predicates => self.predicates,
            Section::Functions => self.functions,
        }
    }

    /// The section stands as well.
    pub fn with(self, section: Section) -> Seen
        ensures { result ≡ with_section self section }
    {
        match section {
            Section::Requirements => Seen {
                requirements: true,
                ..self
            },
            Section::Types => Seen {
                types: true,
                ..self
            },
            Section::Constants => Seen {
                constants: true,
                ..self
            },
            Section::Predicates => Seen {
                predicates: true,
                ..self
            },
            Section::Functions => Seen {
                functions: true,
                ..self
            },
        }
    }
}
