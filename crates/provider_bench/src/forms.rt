use coll_model::Kind;

/// What a round does to the collection.
#[derive(Clone, Copy)]
pub enum Form {
    /// A key gets another value.
    Put,
    /// So does each key in its turn.
    PutNext,
    /// A key is looked up.
    Get,
    /// So is each key in its turn.
    GetNext,
    /// The items are counted, at some version.
    Count,
    /// A key goes, and is put again.
    Delete,
    /// A key gets another value, which is undone.
    UndoPut,
    /// A key gets another value, and the version before it becomes the floor.
    MergePut,
    /// A value comes after the tail.
    Push,
    /// A value comes after the tail, and the head goes.
    Turn,
    /// An item is looked at.
    Item,
    /// So is each item in its turn.
    ItemNext,
    /// The head goes, which is undone.
    UndoPop,
    /// A value comes after the tail, the head goes, and the version before both becomes the floor.
    MergeTurn,
}

/// The word for each form, and the kind of its collection.
pub const FORMS: [(&str, Kind, Form); 14] = [
    ("put", Kind::Dict, Form::Put),
    ("put-next", Kind::Dict, Form::PutNext),
    ("get", Kind::Dict, Form::Get),
    ("get-next", Kind::Dict, Form::GetNext),
    ("count", Kind::Dict, Form::Count),
    ("delete", Kind::Dict, Form::Delete),
    ("undo-put", Kind::Dict, Form::UndoPut),
    ("merge-put", Kind::Dict, Form::MergePut),
    ("push", Kind::Queue, Form::Push),
    ("turn", Kind::Queue, Form::Turn),
    ("item", Kind::Queue, Form::Item),
    ("item-next", Kind::Queue, Form::ItemNext),
    ("undo-pop", Kind::Queue, Form::UndoPop),
    ("merge-turn", Kind::Queue, Form::MergeTurn),
];
