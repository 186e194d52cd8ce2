// Words of an AADL text: the number of a word in the list of words, found by a sum over its letters and one comparison.
#![tactic(auto)]

pub mod kinds; // kinds.rt: the kinds of tokens

ghost use Rattle.std.specs.Prelude.{◌≡◌, ◌+◌, ◌-◌, ◌≤◌, ◌<◌};
ghost use Rattle.common.specs.Words.{length, get_or};
ghost use Rattle.common.specs.Stores.{part};
ghost use Rattle.words.specs.Letters.{same};
ghost use Rattle.words.specs.Words.{kinds, kind_of};
ghost use Rattle.words.specs.declared.kinds.Kind.TheVariants.{Ended};
ghost use Rattle.words.specs.Found.{sum_of, word_at, number_with};

use kinds::{KINDS, Kind};

// The words, so many bytes for each.
const WIDTH: usize = 25;

const WORDS: [u8; 2050] = *b"\
    abstract                 access                   annex                    and                      \
    applies                  binding                  bus                      calls                    \
    classifier               compute                  connections              constant                 \
    data                     delta                    device                   end                      \
    event                    extends                  false                    feature                  \
    features                 flow                     flows                    group                    \
    implementation           in                       inherit                  initial                  \
    inverse                  is                       list                     memory                   \
    mode                     modes                    none                     not                      \
    of                       or                       out                      package                  \
    parameter                path                     port                     private                  \
    process                  processor                properties               property                 \
    prototypes               provides                 public                   range                    \
    record                   reference                refined                  renames                  \
    requires                 self                     set                      subcomponents            \
    subprogram               system                   thread                   to                       \
    true                     type                     units                    virtual                  \
    with                     period                   deadline                 dispatch_protocol        \
    dispatch_offset          priority                 timing                   timing_properties        \
    thread_properties        communication_properties ms                       sec                      \
    periodic                 delayed                  ";

// How many letters each has: `a` says one, `b` two.
const LENGTHS: [u8; 82] =
    *b"hfecggcejgkhdefcegeghdeenbgggbdfdedcbbcgiddggijhjhfefigghdcmjffbddegdfhqohfqqxbchg";

// The number of the word that has a sum: `#` says 0, the next byte 1, and so on. It says 0 also where no word has the sum.
const PLACES: [u8; 385] = *b"\
    #_#####S###########X>#####q#k#####U###a#:######E####c#############6J####,=##j########1#*sQ#2#+###\
    ####M#Af####d###/K######)##############4##Y########^#F#####e##h`#i#$####g########'##9#T##R##PI###\
    ########N#5####8#####<####@##C############(####%#######lV#####;###b###########D#Z################\
    B#########G###\\#&##t##H##O####o##.#n#p###################r########?####-L#]##0#3##m[W###7#####";

// The sum over the letters from `start` to `end`. No two words of the list have the same.
fn sum_of(text: &[u8], start: usize, end: usize) -> usize
    requires { (start ≤ end) × (end ≤ length text.now) }
    ensures { (result ≡ sum_of (part text.now start (end - start))) × (result < 385) }
{
    let mut sum: usize = 0;
    for i in start..end {
        sum = (sum * 144 + wide(text[i])) % 385;
    }
    sum
}

// A byte as a number.
pub fn wide(b: u8) -> usize
    ensures { (result ≡ b) × (result < 256) }
{
    b as usize
}

// The byte at a place, 0 behind the text's end.
pub fn byte_at(text: &[u8], at: usize) -> u8
    ensures { result ≡ get_or text.now at 0 }
{
    if at < text.len() { text[at] } else { 0 }
}

// Whether `n` bytes of two texts are the same, each from a place on.
pub fn alike(a: &[u8], p: usize, b: &[u8], q: usize, n: usize) -> bool
    requires { (p + n ≤ length a.now) × (q + n ≤ length b.now) }
    ensures { result ≡ same (part a.now p n) (part b.now q n) }
{
    a[p..p + n] == b[q..q + n]
}

// The number of the word that has a sum.
fn number_with(sum: usize) -> usize
    requires { sum < 385 }
    ensures { (result ≡ number_with sum) × (result < 82) }
{
    wide(PLACES[sum]) - 35
}

// How many letters a word of the list has.
fn length_of(k: usize) -> usize
    requires { k < 82 }
    ensures { result ≡ length (word_at k) }
{
    wide(LENGTHS[k]) - 96
}

// Whether `n` bytes from a place on are a word of the list that has as many.
fn is_word(text: &[u8], start: usize, k: usize, n: usize) -> bool
    requires { (k < 82) × (n ≡ length (word_at k)) × (start + n ≤ length text.now) }
    ensures { result ≡ same (part text.now start n) (word_at k) }
{
    alike(text, start, &WORDS, WIDTH * k, n)
}

// The kind of a word of the list.
fn kind_at(k: usize) -> Kind
    requires { k < 82 }
    ensures { result ≡ get_or kinds k Ended }
{
    KINDS[k]
}

// The kind of the word from `start` to `end`.
pub fn word_kind(text: &[u8], start: usize, end: usize) -> Kind
    requires { (start ≤ end) × (end ≤ length text.now) }
    ensures { result ≡ kind_of (part text.now start (end - start)) }
{
    let k = number_with(sum_of(text, start, end));
    if length_of(k) != end - start {
        return Kind::Name;
    }
    if is_word(text, start, k, end - start) {
        return kind_at(k);
    }
    Kind::Name
}
