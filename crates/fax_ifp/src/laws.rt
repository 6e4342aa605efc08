//! Laws of the definitions: functions that do nothing, each of whose contracts is a theorem.
ghost use Rattle.fax_ifp.specs.CodeLaws.{IndicatorsStandAtTheirCodes, DataTypesStandAtTheirCodes, FieldTypesStandAtTheirCodes, IndicatorsHaveOneCode, DataTypesHaveOneCode, FieldTypesHaveOneCode, TrainingsAreIndicators, KindsAreDataTypes, TrainingsTrain, TrainingsBeginTheirData};
ghost use Rattle.fax_ifp.specs.PacketLaws.{IndicatorsAreReadBack, MessagesAreReadBack, OctetsAfterAreNotRead, IndicatorsHaveOneOctet, FramesHaveSixMore, ImagesHaveFiveMore};
ghost use Rattle.fax_ifp.specs.Schedules.{FramesAreSent, ImagesAreSignals};
ghost use Rattle.fax_ifp.specs.SignalLaws.{PiecesGoOn, LostSlotsAreGaps, ExtensionsSayNothing, TrackedIsUnique, ImageOctetsArePieces, StartedIsAnOctet};

/// Each indicator, type of data and type of a field stands at its code, and nowhere else.
pub fn codes_are_unique()
    ensures indicators { IndicatorsStandAtTheirCodes }
    ensures data_types { DataTypesStandAtTheirCodes }
    ensures field_types { FieldTypesStandAtTheirCodes }
    ensures one_indicator { IndicatorsHaveOneCode }
    ensures one_data_type { DataTypesHaveOneCode }
    ensures one_field_type { FieldTypesHaveOneCode }
{}

/// The codes that `fax_frames` gives a rate are those of its training and of its data, and its training
/// begins an image of its data.
pub fn rates_have_their_codes()
    ensures training { TrainingsAreIndicators }
    ensures kind { KindsAreDataTypes }
    ensures trains { TrainingsTrain }
    ensures begins { TrainingsBeginTheirData }
{}

/// How many octets the packets of an indicator, a frame and an image's octets have.
pub fn packets_have_their_lengths()
    ensures indicator { IndicatorsHaveOneOctet }
    ensures frame { FramesHaveSixMore }
    ensures image { ImagesHaveFiveMore }
{}

/// An indicator that is written is read back.
pub fn indicators_are_read_back()
    ensures { IndicatorsAreReadBack }
{}

/// Data that are written are read back.
pub fn messages_are_read_back()
    ensures { MessagesAreReadBack }
{}

/// Octets after a packet are not read.
pub fn octets_after_are_not_read()
    ensures { OctetsAfterAreNotRead }
{}

/// Slots that come later add pieces after those of the slots before.
pub fn pieces_go_on()
    ensures { PiecesGoOn }
{}

/// Each of so many lost slots gives a gap and nothing else.
pub fn lost_slots_are_gaps()
    ensures { LostSlotsAreGaps }
{}

/// A packet refused as an extension is as if it had not come.
pub fn extensions_say_nothing()
    ensures { ExtensionsSayNothing }
{}

/// What is kept of slots is determined by them.
pub fn tracked_is_unique()
    ensures { TrackedIsUnique }
{}

/// The octets of the pieces since the last start are those of the last high-speed signal.
pub fn image_octets_are_pieces()
    ensures { ImageOctetsArePieces }
{}

/// Of the image that is open it is kept whether it has an octet.
pub fn started_is_an_octet()
    ensures { StartedIsAnOctet }
{}

/// Of the packets of one sender, some lost, each whole image that is heard is one image signal of the list, octet for octet,
/// and those of later images stand at later places.
pub fn images_are_signals()
    ensures { ImagesAreSignals }
{}

/// Of the packets of one sender, some lost, each frame that is heard is one of the list, where the slots begin at the first
/// packet of the list or each packet can be read and, as V.21 data, ends at a boundary.
pub fn frames_are_sent()
    ensures { FramesAreSent }
{}
