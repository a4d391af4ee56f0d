//! What holds of all files and frames, as contracts of functions without effect.
ghost use Rattle.ci_elf.specs.FrameImages.{FramesAreRead, FramesKeepRules};
ghost use Rattle.ci_elf.specs.Laws.{AnswerIsOne, ImageIsOne, ImageIsWellFormed};
ghost use Rattle.ci_elf.specs.TextChangeLaws.{NoneWritten, OneMoreWritten, OtherWordsStay};
ghost use Rattle.ci_elf.specs.TextChangeLaws.{TextIsLoadedOnce, TextMayChange, WordIsRead};

/// Reading what `frame` makes gives back what went in: the entry, the segments, and the words of the
/// text, of the constants and of the values at their addresses.
pub fn frames_are_read()
    ensures image { FramesAreRead }
    ensures rules { FramesKeepRules }
{}

/// The bytes of a file determine its image, which is well-formed where the file is read.
pub fn image_is_determined()
    ensures image { ImageIsOne }
    ensures answer { AnswerIsOne }
    ensures formed { ImageIsWellFormed }
{}

/// A file of which words of the text are written over keeps all rules, and means what it did, with
/// the new bytes; a byte of a word of the text is loaded to the text alone; and a word that was
/// written is read, while words elsewhere in the text stay.
pub fn text_may_change()
    ensures change { TextMayChange }
    ensures none { NoneWritten }
    ensures one_more { OneMoreWritten }
    ensures once { TextIsLoadedOnce }
    ensures written { WordIsRead }
    ensures others { OtherWordsStay }
{}
