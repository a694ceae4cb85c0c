// The fixed tables of request records: which fields each op must and may carry, and which words a field takes.
#![tactic(auto)]

ghost use Rattle.std.specs.Prelude.{◌≡◌, get_or};
ghost use Rattle.format.specs.Kinds.{kind_number};
ghost use Rattle.format.specs.Format.{musts, mays, field_fits, known_op, transfer_item_must, transfer_item_may, parcel_item_must, parcel_item_may, field_count, answer_words};

use field::FieldKind;

pub mod field;
pub mod maps;
pub mod op;
pub mod refusal;
pub mod rule;
pub mod size;

// The fields that an op must carry, as a bit map; 0 for an unknown op.
#[tactic(auto, unfolding(crate::specs::Format::musts))]
pub fn must(op: u64) -> u64
    ensures { result ≡ get_or musts op 0 }
{
    maps::MUST.get(op as usize).copied().unwrap_or(0)
}

// The fields that an op may carry besides, as a bit map; 0 for an unknown op. Only preparing a transfer and judging one have any.
#[tactic(auto, unfolding(crate::specs::Format::mays))]
pub fn may(op: u64) -> u64
    ensures { result ≡ get_or mays op 0 }
{
    maps::MAY.get(op as usize).copied().unwrap_or(0)
}

impl FieldKind {
    // Whether a field of this kind takes a word.
    #[tactic(auto, unfolding(crate::specs::Format::field_fits))]
    pub fn takes(self, word: u64) -> bool
        ensures { result ≡ field_fits (kind_number self) word }
    {
        match self {
            FieldKind::Word => true,
            FieldKind::Number32 => word <= size::NUMBER_32_MAX,
            FieldKind::Koid => word != 0,
            FieldKind::Route => word <= size::ROUTE_LAST,
            FieldKind::Op => known_op(word),
            FieldKind::Operation => word <= size::OPERATION_LAST,
            FieldKind::Zero => word == 0,
        }
    }
}

// Whether a field of the kind of that number takes a word; of a number that is no kind's, none does.
#[tactic(auto, unfolding(crate::specs::Format::field_fits))]
pub fn fits(kind: u64, word: u64) -> bool
    ensures { result ≡ field_fits kind word }
{
    match kind {
        field::KIND_WORD => FieldKind::Word.takes(word),
        field::KIND_NUMBER_32 => FieldKind::Number32.takes(word),
        field::KIND_KOID => FieldKind::Koid.takes(word),
        field::KIND_ROUTE => FieldKind::Route.takes(word),
        field::KIND_OP => FieldKind::Op.takes(word),
        field::KIND_OPERATION => FieldKind::Operation.takes(word),
        field::KIND_ZERO => FieldKind::Zero.takes(word),
        _ => false,
    }
}

// Whether a number is an op's.
#[tactic(auto, unfolding(crate::specs::Format::known_op))]
pub fn known_op(word: u64) -> bool
    ensures { result ≡ known_op word }
{
    (1..=op::OP_LAST).contains(&word)
}

// The fields that a transfer item must carry: kept, since its contract ties the constant to the definition.
pub fn transfer_item_must() -> u64
    ensures { result ≡ transfer_item_must }
{
    maps::TRANSFER_ITEM_MUST
}

// The fields that a transfer item may carry besides: kept, since its contract ties the constant to the definition.
pub fn transfer_item_may() -> u64
    ensures { result ≡ transfer_item_may }
{
    maps::TRANSFER_ITEM_MAY
}

// The fields that a parcel item must carry: kept, since its contract ties the constant to the definition.
pub fn parcel_item_must() -> u64
    ensures { result ≡ parcel_item_must }
{
    maps::PARCEL_ITEM_MUST
}

// The fields that a parcel item may carry besides: kept, since its contract ties the constant to the definition.
pub fn parcel_item_may() -> u64
    ensures { result ≡ parcel_item_may }
{
    maps::PARCEL_ITEM_MAY
}

// The words of an answer: kept, since its contract ties the constant to the definition.
pub fn answer_words() -> u64
    ensures { result ≡ answer_words }
{
    size::ANSWER_WORDS
}

// The number of fields: kept, since its contract ties the constant to the definition.
pub fn field_count() -> u64
    ensures { result ≡ field_count }
{
    field::FIELDS
}
