//! Laws: the definitions say what they mean to say.
ghost use Rattle.std.specs.Prelude.{ℕ, List};
ghost use Rattle.text_stream.specs.Classes.{IsOfItsSets};
ghost use Rattle.text_stream.specs.Decoding.{ReadsAsWritten};
ghost use Rattle.text_stream.specs.declared.decoder.Decoder.{Decoder as ADecoder};
ghost use Rattle.text_stream.specs.Decoder.{HasRead, GivesAllButThree};

/// Law: each class is the set of the standard that it is named for, and the parts of names are those
/// of two classes. So no character is in two of the sets, but that a name part may begin a name.
pub fn classes_are_sets()
    ensures { (c : ℕ) → IsOfItsSets c }
{}

/// Law: the UTF-8 of some characters reads as those characters, whatever follows it.
pub fn text_reads_as_written()
    ensures { (text bytes : List ℕ) → ReadsAsWritten text bytes }
{}

/// Law: what a decoder gave begins the characters of every text that begins with the bytes that were fed, and all but the
/// characters of at most three last bytes were given.
pub fn all_but_three_bytes_are_given()
    ensures { (decoder : ADecoder) (bytes given : List ℕ) → HasRead decoder bytes given → GivesAllButThree bytes given }
{}
