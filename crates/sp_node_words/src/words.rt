// The words of a journal for what a node answered.
ghost use Rattle.std.specs.Prelude.{◌≡◌, ◌≤◌, [], None as Nothing, Some as There, length, map, vec_capacity};
ghost use Rattle.sp_node_words.specs.Words.{ack_word, document_word, epoch_word, item_word, link_word, prio_word};
ghost use Rattle.sp_node_words.specs.Words.{refused_word, rel_word, section_word, tick_word, weight_word};

use sp_base::{Listed, push_in_room};
use sp_frame::SectionRefused;
use sp_journal::{AnswerWord, ItemWord, LinkWord, Reply, SectionWord};
use sp_msg::SendRefused;
use sp_rules::{
    AckAnswer, DocumentAnswer, EpochAnswer, Item, LinkReply, PrioAnswer, RelAnswer, TickReply,
    WeightAnswer,
};

fn section_word(refused: SectionRefused) -> SectionWord
    ensures { result ≡ section_word refused }
{
    match refused {
        SectionRefused::Cut => SectionWord::Cut,
        SectionRefused::Count => SectionWord::Count,
        SectionRefused::Object => SectionWord::Object,
        SectionRefused::Tail => SectionWord::Tail,
    }
}

pub fn link_word(link: LinkReply) -> LinkWord
    ensures { result ≡ link_word link }
{
    match link {
        LinkReply::TooLong => LinkWord::TooLong,
        LinkReply::Short(short) => LinkWord::Short {
            need: short.need as u64,
            left: short.left as u64,
        },
        LinkReply::Magic => LinkWord::Magic,
        LinkReply::Version => LinkWord::Version,
        LinkReply::NotForMe => LinkWord::NotForMe,
        LinkReply::BadTag => LinkWord::BadTag,
        LinkReply::Learned { boot } => LinkWord::Learned { boot },
        LinkReply::Stale { boot, counter } => LinkWord::Stale { boot, counter },
        LinkReply::OtherTopology { theirs } => LinkWord::Topology { theirs },
        LinkReply::Section(refused) => LinkWord::Section(section_word(refused)),
        LinkReply::Withdrawn => LinkWord::Withdrawn,
        LinkReply::Fresh => LinkWord::Fresh,
    }
}

pub fn item_word(item: Item) -> ItemWord
    ensures { result ≡ item_word item }
{
    match item {
        Item::Weight(answer) => ItemWord::Weight(weight_word(answer)),
        Item::Prio(answer) => ItemWord::Prio(prio_word(answer)),
        Item::Ack(answer) => ItemWord::Ack(ack_word(answer)),
        Item::Rel(answer) => ItemWord::Rel(rel_word(answer)),
        Item::Kack(answer) => ItemWord::Kack(ack_word(answer)),
        Item::Krel(answer) => ItemWord::Krel(rel_word(answer)),
        Item::Epoch(answer) => ItemWord::Epoch(epoch_word(answer)),
        Item::Document(answer) => ItemWord::Document(document_word(answer)),
    }
}

fn weight_word(answer: WeightAnswer) -> AnswerWord
    ensures { result ≡ weight_word answer }
{
    match answer {
        WeightAnswer::Foreign => AnswerWord::Foreign,
        WeightAnswer::Low { .. } => AnswerWord::Low,
        WeightAnswer::Old { .. } => AnswerWord::Old,
        WeightAnswer::BadSig => AnswerWord::BadSig,
        WeightAnswer::New => AnswerWord::New,
    }
}

fn prio_word(answer: PrioAnswer) -> AnswerWord
    ensures { result ≡ prio_word answer }
{
    match answer {
        PrioAnswer::BadEnd => AnswerWord::BadEnd,
        PrioAnswer::Epoch => AnswerWord::Epoch,
        PrioAnswer::Expired => AnswerWord::Expired,
        PrioAnswer::Seen => AnswerWord::Seen,
        PrioAnswer::BadSig => AnswerWord::BadSig,
        PrioAnswer::New => AnswerWord::New,
    }
}

fn ack_word(answer: AckAnswer) -> AnswerWord
    ensures { result ≡ ack_word answer }
{
    match answer {
        AckAnswer::BadEnd => AnswerWord::BadEnd,
        AckAnswer::Epoch => AnswerWord::Epoch,
        AckAnswer::Old => AnswerWord::Old,
        AckAnswer::Ahead => AnswerWord::Ahead,
        AckAnswer::BadSig => AnswerWord::BadSig,
        AckAnswer::New => AnswerWord::New,
    }
}

fn rel_word(answer: RelAnswer) -> AnswerWord
    ensures { result ≡ rel_word answer }
{
    match answer {
        RelAnswer::BadEnd => AnswerWord::BadEnd,
        RelAnswer::Epoch => AnswerWord::Epoch,
        RelAnswer::OffMask => AnswerWord::OffMask,
        RelAnswer::Old => AnswerWord::Old,
        RelAnswer::Ahead => AnswerWord::Ahead,
        RelAnswer::Gap => AnswerWord::Gap,
        RelAnswer::Full => AnswerWord::Full,
        RelAnswer::InboxFull => AnswerWord::InboxFull,
        RelAnswer::BadSig => AnswerWord::BadSig,
        RelAnswer::New => AnswerWord::New,
    }
}

fn epoch_word(answer: EpochAnswer) -> AnswerWord
    ensures { result ≡ epoch_word answer }
{
    match answer {
        EpochAnswer::BadEnd => AnswerWord::BadEnd,
        EpochAnswer::Old => AnswerWord::Old,
        EpochAnswer::BadSig => AnswerWord::BadSig,
        EpochAnswer::New => AnswerWord::New,
    }
}

fn document_word(answer: DocumentAnswer) -> AnswerWord
    ensures { result ≡ document_word answer }
{
    match answer {
        DocumentAnswer::Bad => AnswerWord::Bad,
        DocumentAnswer::Old { .. } => AnswerWord::Old,
        DocumentAnswer::BadSig => AnswerWord::BadSig,
        DocumentAnswer::Strange => AnswerWord::Strange,
        DocumentAnswer::Adopted { .. } => AnswerWord::New,
    }
}

/// The words of all items, in an empty vector that has room for them. It takes no memory.
pub fn item_words(mut words: Vec<ItemWord>, items: &[Item]) -> Listed<ItemWord>
    requires empty { words.items ≡ [] }
    requires room { length items.now ≤ vec_capacity words }
    ensures { result ≡ map item_word items.now }
{
    'items: for item in items {
        push_in_room(&mut words, item_word(*item));
    }
    Listed::from_vec(words)
}

/// The reply to a send that is refused so.
pub fn refused_word(refused: SendRefused) -> Reply
    requires { refused_word refused ≡ Nothing → ⊥ }
    ensures { refused_word refused ≡ There result }
{
    match refused {
        SendRefused::Full { base, have } => Reply::Full { base, have },
        SendRefused::Expired { now } => Reply::Expired { now },
        SendRefused::NoPaths { found } => Reply::NoPaths { found },
        SendRefused::Busy { paths } => Reply::Busy { paths },
        SendRefused::Low { min } => Reply::Low { min },
        SendRefused::Spent { index } => Reply::Spent { index },
        SendRefused::BadEnd => Reply::BadEnd,
        SendRefused::NotReserved { .. } | SendRefused::Memory => unreachable!(),
    }
}

/// What a tick did.
pub fn tick_word(reply: TickReply) -> Reply
    ensures { result ≡ tick_word reply }
{
    match reply {
        TickReply::Ticked => Reply::Ticked,
        TickReply::TickSpent { index } => Reply::TickSpent { index },
        TickReply::TickNotReserved { bound } => Reply::TickNotReserved { bound },
    }
}
