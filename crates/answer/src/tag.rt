// The tag that an action begins with.
#[derive(Clone, Copy)]
pub struct Tag(pub u8);

impl Tag {
    pub const BEGIN_RECORD: Tag = Tag(1);

    pub const INSERT_INDEX: Tag = Tag(2);

    pub const INSERT_VALUE: Tag = Tag(3);

    pub const END_RECORD: Tag = Tag(4);

    pub const DROP_TABLE: Tag = Tag(5);

    pub const INSERT_REF_COUNT: Tag = Tag(6);

    pub const DROP_REF_COUNT_TABLE: Tag = Tag(7);
}
