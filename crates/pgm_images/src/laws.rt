//! Laws about the definitions, as contracts of functions that do nothing.
ghost use Rattle.std.specs.Prelude.{◌≡◌, ◌≢◌, ◌*◌, ◌&&◌, true, false, ℕ, List, length, None, Some};
ghost use Rattle.std.specs.Prelude.{Ok};
ghost use Rattle.vx_base.specs.declared.format.Format.TheVariants.{U8};
ghost use Rattle.vx_base.specs.Description.{is_side};
ghost use Rattle.vx_base.specs.Picture.{PictureValue, IsPicture};
ghost use Rattle.pgm_images.specs.declared.fault.PgmFault.TheVariants.{NoMemory, InvalidFormat};
ghost use Rattle.pgm_images.specs.declared.fault.PgmFault.TheVariants.{InvalidDimension};
ghost use Rattle.pgm_images.specs.declared.fault.PgmFault.TheVariants.{InvalidValue};
ghost use Rattle.pgm_images.specs.Header.{HeaderValue, take_header, is_maxval};
ghost use Rattle.pgm_images.specs.Raster.{all_up_to};
ghost use Rattle.pgm_images.specs.Grammar.{Encodes, IsHeader, HasSamples};
ghost use Rattle.pgm_images.specs.Reading.{read_result, fault};
ghost use Rattle.pgm_images.specs.Writing.{pgm_text};

/// `read_result` gives a picture exactly if the grammar says that the text encodes this picture. A
/// text encodes at most one picture.
#[tactic(auto, using(crate::proofs::StandsLemmas::stands_read))]
pub fn reading_by_grammar()
    ensures found { (text : List ℕ) (p : PictureValue) → read_result text ≡ Ok p → Encodes text p }
    ensures only { (text : List ℕ) (p : PictureValue) → Encodes text p → read_result text ≡ Ok p }
    ensures one { (text : List ℕ) (p q : PictureValue) → Encodes text p → Encodes text q → p ≡ q }
{}

/// A text has no fault exactly if it encodes a picture. `NoMemory` is never the fault of a text.
#[tactic(auto, using(crate::proofs::StandsLemmas::faults))]
pub fn faults_by_grammar()
    ensures stands { (text : List ℕ) → fault text ≡ None → (p : PictureValue) × Encodes text p }
    ensures none { (text : List ℕ) (p : PictureValue) → Encodes text p → fault text ≡ None }
    ensures memory { (text : List ℕ) → fault text ≢ Some NoMemory }
{}

/// `take_header` gives a header and a rest exactly if the grammar says that the text is this header
/// followed by this rest. So a text begins with at most one header.
#[tactic(auto, using(crate::proofs::StandsLemmas::header_of))]
pub fn headers_by_grammar()
    ensures found { (text : List ℕ) (header : HeaderValue) (rest : List ℕ) →
        take_header text ≡ Some (header, rest) → IsHeader text header rest }
    ensures only { (text : List ℕ) (header : HeaderValue) (rest : List ℕ) →
        IsHeader text header rest → take_header text ≡ Some (header, rest) }
{}

/// The fault of a text is the first that applies:
///
/// 1. `InvalidFormat`: the text has no header.
/// 2. `InvalidDimension`: a side isn't 1 to 8192.
/// 3. `InvalidFormat`: the maxval isn't 1 to 32767.
/// 4. `InvalidFormat`: the header isn't followed by exactly the number of samples that it states.
/// 5. `InvalidValue`: a sample is above the maxval.
pub fn first_faults()
    ensures header { (text : List ℕ) →
        ((header : HeaderValue) (rest : List ℕ) → IsHeader text header rest → ⊥) →
        fault text ≡ Some InvalidFormat }
    ensures sides { (text : List ℕ) (header : HeaderValue) (rest : List ℕ) →
        IsHeader text header rest → (is_side header.width && is_side header.height) ≡ false →
        fault text ≡ Some InvalidDimension }
    ensures maxval { (text : List ℕ) (header : HeaderValue) (rest : List ℕ) →
        IsHeader text header rest → (is_side header.width && is_side header.height) ≡ true →
        is_maxval header.maxval ≡ false → fault text ≡ Some InvalidFormat }
    ensures samples { (text : List ℕ) (header : HeaderValue) (rest : List ℕ) →
        IsHeader text header rest → (is_side header.width && is_side header.height) ≡ true →
        is_maxval header.maxval ≡ true →
        ((samples : List ℕ) → length samples ≡ header.height * header.width →
        HasSamples header.encoding header.maxval rest samples → ⊥) →
        fault text ≡ Some InvalidFormat }
    ensures high { (text : List ℕ) (header : HeaderValue) (rest samples : List ℕ) →
        IsHeader text header rest → (is_side header.width && is_side header.height) ≡ true →
        is_maxval header.maxval ≡ true → length samples ≡ header.height * header.width →
        HasSamples header.encoding header.maxval rest samples →
        all_up_to header.maxval samples ≡ false → fault text ≡ Some InvalidValue }
{}

/// The text that is written for a U8 picture encodes that picture. Reading the text returns the
/// same picture.
#[tactic(auto, using(crate::proofs::WrittenBack::text_and_back))]
pub fn text_is_read_back()
    ensures stands { (p : PictureValue) → IsPicture p → p.description.format ≡ U8 →
        Encodes (pgm_text p) p }
    ensures read { (p : PictureValue) → IsPicture p → p.description.format ≡ U8 →
        read_result (pgm_text p) ≡ Ok p }
{}
