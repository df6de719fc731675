//! Laws: the tags of the nodes.
ghost use Rattle.tao_tables.specs.Tags.{TagsAreTold, TagsAtStart};

/// A write-back replaces the tags of its nodes.
pub fn tags_are_told()
    ensures { TagsAreTold }
{}

/// At the start these are the tags of the loaded tree.
pub fn tags_at_start()
    ensures { TagsAtStart }
{}
