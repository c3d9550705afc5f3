use lrc_book::Cause;
use lrc_image_text::ImageTextError;
use lrc_topology::TopologyError;

/// Why no book begins in the image of a text.
#[derive(Clone, Copy)]
pub enum OpenError {
    /// The text of the nodes is refused.
    Nodes(TopologyError),
    /// The text is not that of an image.
    Text(ImageTextError),
    /// The nodes or the lines before it do not allow the line of this number.
    Line(usize, Cause),
    /// Memory was refused.
    OutOfMemory,
}

impl From<TopologyError> for OpenError {
    ghost use Rattle.std.specs.Prelude.{◌≡◌};
    ghost use Rattle.lrc_openings.specs.declared.error.OpenError.TheVariants.{Nodes};

    ghost from_gives = { λ error e. e ≡ Nodes error };

    fn from(error: TopologyError) -> OpenError {
        OpenError::Nodes(error)
    }
}

impl From<ImageTextError> for OpenError {
    ghost use Rattle.std.specs.Prelude.{◌≡◌};
    ghost use Rattle.lrc_openings.specs.declared.error.OpenError.TheVariants.{Text};

    ghost from_gives = { λ error e. e ≡ Text error };

    fn from(error: ImageTextError) -> OpenError {
        OpenError::Text(error)
    }
}
