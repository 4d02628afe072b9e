//! The law of components, of definitions alone.
ghost use Rattle.axis_project.specs.Components.{ComponentsShow};

/// The law of components: where each variable of a problem has a key, and both ends of each separation have one, certificates of the
/// components, put together by their numbers, show the projection of the whole. The call does nothing; its contract is the law.
pub fn components_law()
    ensures { ComponentsShow }
{}
