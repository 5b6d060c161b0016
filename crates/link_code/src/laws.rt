//! The laws of linking.

ghost use Rattle.link_code.specs.Runs.{LinkedKeeps};
ghost use Rattle.link_code.specs.Sound.{SoundIsLinkable};

/// On each input of bytes on which the routines never fail, the linked program never fails either, and does the same.
pub fn linked_program_does_the_same()
    ensures { LinkedKeeps }
{}

/// What holds of each machine and each image that a pass gives is most of what that law asks.
pub fn sound_image_is_linkable()
    ensures { SoundIsLinkable }
{}
