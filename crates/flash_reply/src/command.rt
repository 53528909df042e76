use flash_meta::Meta;
use flash_text::Text;

/// A command that is answered.
#[derive(Debug, Drop)]
pub enum Command<'a> {
    /// A command of the text protocol.
    Text(Text<'a>),
    /// A command of the meta protocol.
    Meta(Meta<'a>),
}
