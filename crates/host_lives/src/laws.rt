//! Laws of the lives of a host. They hold of any lives in which the host writes in this order: a device is saved before its link opens,
//! with a site that no other was given, and its close before that is told. Each has a sample, small lives on which its premises
//! hold.
ghost use Rattle.host_lives.specs.Laws.{KnownDeviceLaw, OneDeviceLaw, RecordedDeviceLaw, ClosedForGoodLaw, NothingMoreLaw, RecordedCloseLaw};
ghost use Rattle.host_lives.specs.Samples.{KnownDeviceSample, ClosedForGoodSample};

/// Each request that a crash leaves in a document's file was there at first, or is of the host's own site, or came on a link, open
/// then, that had shown the secret of the device which the people's file had under its site; and that is the same device, by
/// its person and its digest, in each people's file that a crash leaves then or later. So no site of a document is without
/// its device, and none is given again.
pub fn known_devices()
    ensures requests { KnownDeviceLaw }
    ensures sites { OneDeviceLaw }
    ensures records { RecordedDeviceLaw }
    ensures sample { KnownDeviceSample }
{
    host_core::laws::authentic();
    peer_store::laws::one_list();
}

/// Once it was told that a device is closed, it is closed in each later life, whatever a crash leaves: no link of its site opens,
/// nothing comes of one, and none is given or told anything. So what a document's file has of its site came before.
pub fn closed_for_good()
    ensures device { ClosedForGoodLaw }
    ensures requests { NothingMoreLaw }
    ensures records { RecordedCloseLaw }
    ensures sample { ClosedForGoodSample }
{
    host_core::laws::authentic();
}
