//! Scripts with lines of traffic: what is wrong with such a line, and what comes of walks over its frames. The texts
//! are those of a model that was written apart. Rows stand behind functions, so that no proof sees them.

use command_rows::Turns;
use command_walk_rows::wrong_walk_of;

/// What is wrong with a line: its words in their order, then the number of items, then its place in time.
fn fault_rows() -> &'static str {
    "\
    lines 1|delays 0|ring 1|lag 1|ticks 9|stream 64 1 0 9 => 5;;fault: line 6: word|help: stream takes 5 words, \
        and 4 follow|\n\
    lines 1|delays 0|ring 1|lag 1|ticks 9|stream 64, 1 0 9 1 => 5;;fault: line 6: number|help: word 2 is numbers \
        of one to ten digits with commas between|\n\
    lines 1|delays 0|ring 1|lag 1|ticks 9|stream 64,,65 1 0 9 1 => 5;;fault: line 6: number|help: word 2 is \
        numbers of one to ten digits with commas between|\n\
    lines 1|delays 0|ring 1|lag 1|ticks 9|stream ,64 1 0 9 1 => 5;;fault: line 6: number|help: word 2 is numbers \
        of one to ten digits with commas between|\n\
    lines 1|delays 0|ring 1|lag 1|ticks 9|stream 00000000064 1 0 9 1 => 5;;fault: line 6: number|help: word 2 is \
        numbers of one to ten digits with commas between|\n\
    lines 1|delays 0|ring 1|lag 1|ticks 9|stream x,1 1 0 9 1 => 5;;fault: line 6: number|help: word 2 is numbers \
        of one to ten digits with commas between|\n\
    lines 1|delays 0|ring 1|lag 1|ticks 9|stream 63,63,63,63,63,63,63,63,63,63,63,63,63,63,63,63,63 1 0 9 1 => \
        5;;fault: line 6: range|help: word 2 has 1 to 16 numbers|\n\
    lines 1|delays 0|ring 1|lag 1|ticks 9|stream 63,63,63,63,63,63,63,63,63,63,63,63,63,63,63,63,x 1 0 9 1 => \
        5;;fault: line 6: number|help: word 2 is numbers of one to ten digits with commas between|\n\
    lines 1|delays 0|ring 1|lag 1|ticks 9|stream 64,9601 1 0 9 1 => 5;;fault: line 6: range|help: each number of \
        word 2 is from 64 to 9600|\n\
    lines 1|delays 0|ring 1|lag 1|ticks 9|stream 63 0 0 9 1 => 5;;fault: line 6: range|help: each number of word \
        2 is from 64 to 9600|\n\
    lines 1|delays 0|ring 1|lag 1|ticks 9|stream 64 1.5 0 9 1 => 5;;fault: line 6: number|help: word 3 is a \
        number of one to ten digits|\n\
    lines 1|delays 0|ring 1|lag 1|ticks 9|stream 64 0 x 9 1 => 5;;fault: line 6: range|help: word 3 is from 1 to \
        400000|\n\
    lines 1|delays 0|ring 1|lag 1|ticks 9|stream 64 400001 x 9 1 => 5;;fault: line 6: range|help: word 3 is from \
        1 to 400000|\n\
    lines 1|delays 0|ring 1|lag 1|ticks 9|stream 64 1 x 9 1 => 5;;fault: line 6: number|help: word 4 is a number \
        of one to ten digits|\n\
    lines 1|delays 0|ring 1|lag 1|ticks 9|stream 64 1 5 5 1 => 5;;fault: line 6: range|help: word 5 is from 6 to \
        9|\n\
    lines 1|delays 0|ring 1|lag 1|ticks 9|stream 64 1 9 9 1 => 5;;fault: line 6: range|help: word 5 is at most 9|\n\
    lines 1|delays 0|ring 1|lag 1|ticks 9|stream 64 1 0 10 1 => 5;;fault: line 6: range|help: word 5 is from 1 to \
        9|\n\
    lines 1|delays 0|ring 1|lag 1|ticks 9|stream 64 1 0 10 x => 5;;fault: line 6: range|help: word 5 is from 1 to \
        9|\n\
    lines 1|delays 0|ring 1|lag 1|ticks 9|stream 64 1 0 9 18446744073709551616 => 5;;fault: line 6: range|help: \
        word 6 is from 0 to 18446744073709551615|\n\
    lines 1|delays 0|ring 1|lag 1|ticks 9|stream 64 1 0 9 000000000000000000007 => 5;;fault: line 6: number|help: \
        word 6 is a number of one to twenty digits|\n\
    lines 1|delays 0|ring 1|lag 1|ticks 9|stream 64 1 0 9 -1 => 5;;fault: line 6: number|help: word 6 is a number \
        of one to twenty digits|\n\
    lines 1|delays 0|ring 1|lag 1|ticks 9|frame 5 00|stream 64,63 1 4 9 1 => 5;;fault: line 7: range|help: each \
        number of word 2 is from 64 to 9600|\n\
    lines 1|delays 0|ring 1|lag 1|ticks 9|frame 5 00|stream 64 1 4 9 1 => 5;;fault: line 7: order|help: the frame \
        before is due at 5|\n\
    lines 1|delays 0|ring 1|lag 1|ticks 9|tick 4|stream 64 1 0 9 1 => 5;;fault: line 7: order|help: frame, \
        stream, add and remove stands before event lines|\n\
    lines 1|delays 0|ring 1|lag 1|ticks 9|stream 64 1 0 9 1|fail 0 3 4 0 => 5;;fault: line 7: order|help: fail \
        and lost stands before frame, stream, add and remove|\n\
    lines 1|delays 0|ring 1|lag 1|ticks 9|stream 64 1 0 9 1|lines 1 => 5;;fault: line 7: order|help: the \
        line lines stands already in line 1|\n\
    lines 1|delays 0|ring 1|lag 1|ticks 100000|stream 64 400000 0 2749 1 => 5;;fault: line 6: range|help: a \
        script has at most 268435456 items, and this line brings it to 268457032|\n\
    lines 1|delays 0|ring 1|lag 1|ticks 100000|frame 5 00|stream 64 400000 4 2753 1 => 5;;fault: line 7: range|\
        help: a script has at most 268435456 items, and this line brings it to 268457033|\n\
    lines 1|delays 0|ring 1|lag 1|ticks 100000|stream 64 400000 0 2748 1|stream 64 400000 2748 2749 1 => \
        5;;fault: line 7: range|help: a script has at most 268435456 items, and this line brings it to 268457032|"
}

/// The greatest number; sizes in turn, where a second line begins with the draws of the first; what may stand behind
/// the last frame; event lines that count frames.
fn walk_rows() -> &'static str {
    "\
    lines 1|delays 0|ring 1|lag 1|ticks 60|add 0 0|stream 64 1 30 60 1 => 0+;got \
        02000000000202000000000188b5d659cce65af39af629bafbf27c20ba0c1a1fd4356b8dde623db024a051a09f121cc58e5aca6adc\
        1dffe48ab8cd1682076840|got \
        02000000000202000000000188b5f4052fa2aae87cc21d28d6b377064916ec35679fb378a227a21df1ac8784e946af0581abb74212\
        7138f3387e961879d60483|got \
        02000000000202000000000188b5ff5641e275441b2029e09e4a0e3d14f3ee6c7a00139911695bf4e9b8767c47110381825846b444\
        35fc73be960eab49b8f5d3|got \
        02000000000202000000000188b5f75fce345e65653d2482bf22cdd15d5902f96d8902272c4962b676b11a3b09bd5a1958206de6c4\
        c5130b855491e1882c09d7|got \
        02000000000202000000000188b55e12f2172156543968e60055949960e1ad480a1eb6e3cec9273498b1f9e19e410c8572ee946196\
        5c39a519905b1b2225bbac|got \
        02000000000202000000000188b5be4aedf82e547b4749a57a4a59ab112347e70d8107b415db3e49720dbb4ebc5a577c3ea5894021\
        8d58b67d00ce92f37ddc5e|got \
        02000000000202000000000188b594f374d08e5be24b8d4c6b2f90c11cf1f96a256645233641124bada0116f98bcb9b2d3e93bf9d7\
        bdc7b2aab74fafcec2c41b|got \
        02000000000202000000000188b53ff78c95720c0f92e5482ccf46b81146601252c27f77b16bdf3233254b97bfc30b0b8716b92ec9\
        309712c301f8d181a0c9f6|total ticks 60 taken 60 frames 8 commands 1 refused 0 got 8|;\n\
    lines 1|delays 0|ring 1|lag 1|ticks 9|stream 64 1 0 9 18446744073709551615 => 0+;total ticks 9 taken 9 frames \
        3 commands 0 refused 0 got 0|;\n\
    lines 1|delays 0|ring 1|lag 1|ticks 200|frame 0 00|add 0 0|stream 64,1518 100 100 103 7|remove 100 0|frame \
        102 aa|stream 64 1 110 112 7|add 120 3 => 0+;got \
        02000000000202000000000188b55e3f3191e903e814db7603b34070dda2fd732c9fd8a136325d7058d9c570e89da60b1d13195be4\
        687d9720222ce830452cd7|got \
        02000000000202000000000188b560a0524a745e0d1c5acbc0a0b2eb9fe53374db89d4b378a2a926460388cd46f552b6a8ef605011\
        3f22d3af03bda15d42580663ec1d5fc076a55c43bbf35836d7212334f8edde02fd2637e7ae0a1ea27ce07a1111aa25f7a1f1475953\
        395a48c430ab8a7dd976a18f29823b2df9f163ac9d7aaf4c7023c576f75267da4f6a6a6624b56e2041c1f815032106adee5c25c833\
        900cb076f75aa7969afc45b5b0a9d29fec1e95ae5274ad032015a50531bde017118cd52eb4c6a1c5ec805472f62efd8e6023aeb0d5\
        7e07d46d14fb4b1888d21c732e264b4ed562bb48e001823bbcbee72a9adff1c29d87e19a7eb26c692c87713620a6128e70d593e1bd\
        63d2c0aa3df389024cc99011d43f1c0713ee75d3a92741c83a328176a9719e1a1baf9f63f411838d4e525ff2fb090d8951e55ee8de\
        3cc553731a6b1bab261b853abfd46424fb0be6800234c9fe506c72b62664577f189bc1d7c839c79c572dc7af72d6b4ce8a9b8445bb\
        9db0f776e1b44cfbb743d4982970a8276c6e9020dd1329fda2e62cfe5c72d161eeeea719f82a055ec84dcb8dc12f2fdd9372c23aed\
        ac85c95293aebfc1a3b5f0ea169978eb8d64a618472fc981c486a133fbeda0db1ab66a26596da6acb6e314f89fb253d9dea5c28f78\
        669db6fedc1340da29b45cd22e171c5527bf0c4b3c35d10850568f5268ed4555a6e1bb3f441007e140e36164c69bfe25b89002ca97\
        16b570e0fac4c0dbe0d9c2af7a5c8bfa83a3c189cb9a2a26cbf46114db7db649e517b1faecdc8e5d8940ca065bb71330c1ef6a40e2\
        7071b37d9397bde85f742ecfd306f5f12b1eae4115dfaa0e99455057f3e462968e2bf2f971ccbe441c9b3419dc1f064bb0bb96806b\
        9850b86556cd64d9b0fff7dc1775f33478260dddc265b26dc0d3a05d060a1220ec1d9d724f676c5a9f1bd8047343fd23fffbb01ec9\
        6946bbe3915cd5e2dbcba8edda27e99ef6aeb33602777024bd7b36b4ba31d1ad99db274e9c97a9e3dbbd660cb3672d1fb1f6138724\
        a0cd68101aad514bf2fecc7edcecb58c7b213986ee77ce6c1fb5a8f9f78f8f6b550cfc16c617f77cf5e6b9e4b55255d42877202f8d\
        040e1b42721ba31a901115eee0d3c01cecabfba2a18759e55f11d51a9ac8a2a216b862ffaeefbed9c4f810c2c43a04619a4fcc0d42\
        953f95080f7d0c6fc6564be40628406b3edd90932ecf4c78883ff6152545ba76dc4eaae2d75b6191020d6ba541d0b34853e0d50afc\
        a3cd024e264eeac885e0a4bba05c51ec3b04951e03e1e1f5f34ce0b5404752e9987534ff2762d1aa6e3393453d4d3cec3dcfc56a96\
        3e42b89a4eabb7d2ec9d12cb03a62057a7bb111e24840e1d173d2e7173694d6cf9e360f6cb5e8015fe970c42ee3bf6d9836494e7a9\
        d877b76c51dbebd78133202227c599adcf9ffb455a3e480c23b0c93f6518cb81327d089e0a8e61040bfa679b03f9303a51112ee9de\
        bf45ae5815a282c64d6ffa11031bc13f714382bfddbdcbd308bb179bd3dbcae5b11450a2b2293f0aac9b33f9a113353fd8514656e7\
        8dd1a93747d125edfe517622e1b61986d830c6f22fe50ff2b3c27f61b60f45d7d63c1fba23dd0bfe26c9c3677e952331c1c8b01f9b\
        a53c5d6b2acf8ea35002965941a9fba1226a4bc230a2f73eb6f59dfca82df0ddabce69db4006e46492c51f406b664c46fa484be792\
        7bca4f9d9830909467dff3169781e07a3886fb5bc6ea49d46c2f8ab9efb59bd6b8388fac6575dae9d9a1dbaf92491b0963553b9400\
        e068daa0090eb1d10a9e1ab952e9c809497492651f06330065fb6ba2895d6a74c2fb52046654b8e5a8b28541c02c82078ca57ce0f5\
        57140bcc4884e0d41cb6e4176a3e87b2f92f914e649b6c2064b5b64a428c277095bfe68d282f04f84ce21b9b5301567a7180fe3354\
        1419e2b5b2c16a1d11ad096b616f26a956a4e8f74cab2b3318b1243b2c078b042fe4a4b1df30daebc09065dc2c5048cc853a66ee2f\
        2b339248352f9b488d98178b8f1133e2dd3cac2026cd3e1c9f280effd01bec02fd97a65bb5f2d88863372277f83bb93f7f1698860d\
        30b43dff4d6f55313b26638c25804d84d2eec1a6ecf3ca867b398527788464861613|got \
        02000000000202000000000188b586c49e236f43dbfb799f9b6b780e80b4094908ccefa56e58361ecd7eed4131ceecb146b1aa8d61\
        d455fe54b9d5c5cdf32afc|got \
        02000000000202000000000188b58c849753d70ab73eb6692092ac007f1576c32dbaefb8c4ef25bcdd89db56e4c15c83d5624c2573\
        c08b54f392703abbc8158c5b53fa44b88ef21da602a36ac31d9fc7aa027b34af4b90a1f31c2b88bdde1a91a111de08683f6490fc61\
        351bb1c48e8abe543c2633b6cffe9871067dde3b036a2fb622d9e2acb8ea7508cf20eeb35757ac62667686e6c6875b801dbcdda26a\
        40b8c9dea928f614c1057283dd21b50bb2b8f18e67f5bbf98f13ddde5284b732bb60a1b4fb71cf587a9867d1fe3ea70a4202d144bc\
        1667f8edc42de38ec982366a32fa50dff32369ca22a7c78ceb3bf27741add0f1cc55efbcf71b535a7a6d71ac1903646d2334fec835\
        229b8962350bb7f05d6ff7cf87b6ac8ec5bb165ac7b21752f226b97c3df17118a3c808db2e34060ab70c66b07a59ca18b16defccc4\
        c46461124b51c59305b15a06afc76dd64f2b3ae2853c5d8226c4ab3c5eb8f5ff1cd686578533d44438ece9e5b04474b2305e932261\
        1627b13eb9318b814463780624b46c8045d63c8e0ba3cbc75b775f0770c42d0fe646339e7b43fba53e2e1b54e203465f5311e261ff\
        71e6ad5f8d565272ccfba72bde33ad5c7c15d082a4ba8968a735ba82293b29cfd63570ad402544de311920b18738487a50fd21f966\
        93853e6473194de789cc1c083b94ccf439b744b37311c04c0a537f5c6228ed1350b5048538f3fd7e706d308432ac01cc17956f84af\
        efdf380fc0f440f1c4e46a85beda4d4828a14f94b48223b67c6b0c25c80df8f7c90453302201f34483fdf2b5aa49f20803892cb99e\
        c2adfc929c04e4a7dcbf4a81552c38b5c096577bc319d195ae0b09b23b2268cb60f18063af6eb3e0529853915cddb2effaca74a887\
        df39dd208a1e46f2b80c49975938ece45814e7c485b240bf8f52897b86a5ce3efb3ec8dc2fed2d92ba93e2f2fe41cbb88768e50f82\
        d4647e7fcd10d66baaccd47922ba2c7efc34247995e75c3e16dc7f5d3220c5b73f9fa98440efab99638409e79adbd1354600cb94ed\
        82a3d03a597a3cd7eed033651898150efe7705c52ec8f8cb45ec3b4a0a433add7b815c7175736ee01ca118f7bca6cb448ed84c4b3f\
        00a4d4b6661e9b21d6efb38f2a8a6978d587bee0d458b1f8696975f6570be5bcfdd5c4b8d802f663d4d4e533509fef60464b02435c\
        e7b0fa6c5d229fb3b06b1f4484234df916cbbb8f6ab2e9af8ba3f8bc162a0e2b6f416a66ca9395a6d28eafe765f021828c57dcd2d5\
        46071380237b1dbbd73b5b8630a8f50a3f8f3207456062082335970d2cc4dea65909e60bbdad51ee95dbd7639d8cd7b4a97f6835c5\
        2ef17dab09b5ab4ab2da1b525a32a2a77adf281a8a8614499da11fc29cb16aedfa6b7cf44d165caaa7d8e6e5a332c0a510060a0658\
        ef316dd4f96bcaf5983036ea9d0be30c9ae95362427537995375448253442535671301d55101b27713642a431d9e5b5a3465eadedd\
        b07b46c47c84debefa30e3b88598b11c9dfa7f49864dc5a8c03d80cf25c04b3c4419dc79d20dcf3fa70f5e4a00a91b8ccf16e4e093\
        978cfa36e5a8bb306692bb6848fdbbcadeb9eb8496cbcc5a642bc6024d86c1595b6926a7310d9038c14cf81d368728a17f528a6ccb\
        e65dfc029c9d01195a674ac1c36ebcffa79e0d9241cbf7a3e94494b2c7b042a4ed359a9684cefb0af69fd2b1f0a1c92e57d2929164\
        c06305e77e74a45059d54a0ed0655d93b40926a1dc2e4914edf320921d33f65411672becbbbd9c54ff46d75493c192d28333c8ddf7\
        bec87f3dcfb99463da90541bed58d45c282f0135eb9914f77abbe003f307767cda0387128de207de6253ca5e83ea3dc9c4f06fbdb6\
        d6d933797ca9c63e900c722b58e8d89c89340c8f683ceea378507c87a035241a05d565f9e9ade2040a26a67b179fc2cc23ac1481c1\
        ce707673118765e08ddb6f97c6383b55b32b3afab7710d7d4924f5ad7bb1a9273e961d47299be662eecdd6356d11bfa60dec5b1d32\
        03711efe491c29ce9b3fce5f11710036983798287ca27e72b5f221521d7051142adad8afce18a7266e35641b0f49629790c4e90398\
        374ed77469bf9c2091f0ef9ef145017bb7bd0019b1a1eb354295b6524b5e0826c80e|got \
        02000000000202000000000188b55c15777ae2d195fe43f8f0b2fbc92cacb09a649006bcfa5cd712023ddb7370d6c1cb9c128baaf5\
        311d025811220da45c5816|got \
        02000000000202000000000188b5a36e63d4484ebb1ef516f21efb2175d6d1b58c89aa276be3ce4e382f3628899162fd1185f434a6\
        8c15135531b647e5b89f1687af4902238e5f461cba1c13a488434bda99830e0047d2e2a27b909ad035b17a004a2ff04f9596cf8067\
        c7d2bcfa3db763e34137e4699c76f9fd0607ea5416fe6cab067af3e043b98e34a2a9010e4083b9f7cd18f75653b07c85751f428d30\
        06827ece2c6203d3bf9f9acf0014d383c4a581c22f979a3b774722633c0fd64472d966c3d3b1627dd47340a9c516875dd09122d889\
        8c5b6e42f122411bfe29914c0317c43fa2ddfefbf337c95035629b34e0c58cca2d3dd6308587b101ff8fe4fd2de9358511f7c9906e\
        b18bbeb5de511fce7843a514cf9f9302044c5e91a5affb38f966bcdf81be20543f14d584813359cbc9f0e8486e2b035872e5e992ac\
        9bf95abc764364c461b47181d867402466b05a9d39f4eab58af1e2ca4f44860aa29c3a19bc7f57248aa9b0699c31cac1daea6b851d\
        c163606cb767a1a41e6b599da98a06a71e3c51a0f852ebfe3a4fb31a363a9e17620fba9a26931e07d200ed5eb5279b26d655ea4910\
        af3f76b7d489a41eaee5c2016e81e69cf973e88797df455ab7b08ca608a9a1217191e16d4848bef732110364cc55a39189d6cfd45d\
        9453e6c2f3f798d40aeff05240818d0e37c9d213eea9e9729b9aa995fe9ae02cc6be8853823104b776dc265896821a082818ed6033\
        940f4fe97f4748164702d6110b091305194d1fec242292fe03c7283f43a542de5a6f2befe59ba43936e1eef69df6e54587235527cd\
        4a57c3995b7c3e00e4e00a6c424ee0b135036cef1a1e67ce560547ae466c4cdcdc0141508eb74a7118b34abc5fb05a17160f14685b\
        e9d082d5a5e204c6ad0c8b402aa5376d4539029c6a83ddbea5d0044042f2c90603a33d7d08dca9c48356fdd769236239d058b6b146\
        41b1790b731bc7e09caf561559b8df238045b2e978714c92ae6bcb55b2ffe8f494864af79a27637971f7f80f04f6cbb3b9751558cc\
        fa686d347d71abde1619ed67bd92dfab1281e019fc35f350d87be2aaabc633dfb55ffb53d8549344cace4f5bf1d24c8656d1ae7b60\
        8b241433485fc494b3b11d79a52a96d15144e9db3a421c9cb5036cf65d3b3250d4315465dafb67fe1f50f7113b192c5e6577b4cba6\
        ca3e3a88b46af1141a8e4ae321cf6ad7c9f23b65bf8eed82d2201685f73b33632e95ed42273d37de1b085fa745026e18ba620a3748\
        d95b8e8917b700ac0a9b3dd00ba702e7c3202cc438fdcc7ebaea55b767f760c3543af3547f2d67266cce6788ffc90f71dc5e0a4e57\
        2edc11142e5c41024305ff212c196f5515e6aeb5abf287194d5be1da74b1242f63dfef0c80bc8e994866aeb7520bf452c228d30a80\
        bab0a368851e63aa93df9ab57b8384aafa26935f1ed70a7ac91aadc4b870abdbd87565b05587e184f2c377a99a00ca1440fc6e46e6\
        be31d81bf14deae443bbe19335fdc0c32065b4eebc277a8430a7558f135cffd453943bdda188ca1bf38822d319b65f7441149016db\
        80da85bce54b70925b3d1c208fbfd42257c3cd9f58ee0e72e524bec1100a79534e390efc54ac2468c94454b3a006ff811386d2ecad\
        29bd92bc9925a3dc1f39f6468754445d2257648550328f0ee96796ac16439212a44a2fa9e45f424bd39a327f7d6eb2fed84dd88278\
        cb9611b16d446152e36562ed823a2ce8d602e7a0918f705f0077609599aee2165cf67fc7a235fdf5f9e891a7874031eea579d96edb\
        a964434fa9d74e490c91aa8299eef011188920b557f55e4047e6c61d1e520988b173d4ed8d6c3b996e593e000e64fb145f8d5b1133\
        11dd4a271a6fc47476111068019ad563ed6e2342814dfef97dfaa478c31c3150db016a6c103bd5bbc277e29ab0bb0ab86be69107df\
        29cdfe12f52b8f55cd416486117bb0dd714418f76a741edb43bd2d4e24cfea7bdd23306822d1c58f4dde10cc8ee4793b793d4584d2\
        d75492e9ebc8d643b9e29b93e1fdd09652f521f9ee71b88f8497e87a24bf6d3fc71e0f507fbd27884e4c69795199db7d4ee9d03107\
        2aeb9026fc7c83196fb4643a5eb2d4f2c3d37c620b0327e8eff7cd161db24e0e7e77|got \
        02000000000202000000000188b55e3f3191e903e814db7603b34070dda2fd732c9fd8a136325d7058d9c570e89da60b1d13195be4\
        687d9720222ce830452cd7|refused 0 length 1|refused 9 length 1|refused 11 unknown|total ticks 200 taken 200 \
        frames 7 commands 2 refused 3 got 7|;\n\
    lines 1|delays 0|ring 1|lag 1|ticks 200|stream 64 1 0 30 1|frame 28 00 => 0+;refused 8 length 1|total ticks \
        200 taken 200 frames 8 commands 0 refused 1 got 0|;\n\
    lines 1|delays 0|ring 1|lag 1|ticks 200|stream 64 1 0 30 1|stream 64 1 28 30 1 => 0+;total ticks 200 taken \
        200 frames 9 commands 0 refused 0 got 0|;\n\
    lines 1|delays 0|ring 1|lag 1|ticks 200|stream 64 1 0 30 1|frame 27 00 => 5;;fault: line 7: order|help: the \
        frame before is due at 28|\n\
    lines 1|delays 0|ring 1|lag 1|ticks 200|stream 64 1 0 30 1|stream 64 1 27 30 1 => 5;;fault: line 7: order|\
        help: the frame before is due at 28|\n\
    lines 1|delays 0|ring 1|lag 1|ticks 60|add 0 0|stream 64 1 0 30 1|operator 1|client 3|tick 5|client 9 => \
        0+;total ticks 4 taken 0 frames 2 commands 1 refused 0 got 0|;"
}

/// What became of each frame.
fn fate_rows() -> &'static str {
    "\
    lines 1|delays 0|ring 1|lag 1|ticks 60|add 0 0|stream 64 1 30 60 1 => 0+;frame 1 due 30 got 40 40|frame 2 due \
        34 got 40 40|frame 3 due 38 got 40 40|frame 4 due 42 got 42 42|frame 5 due 46 got 46 46|frame 6 due 50 \
        got 50 50|frame 7 due 54 got 54 54|frame 8 due 58 got 58 58|fates ticks 60 taken 60 frames 8 got 8 lost 0 \
        waits 0 refused 0 starts true|;"
}

#[test]
fn streams_are_walked_or_refused(rt: HostRuntime) {
    let rows = [
        (Turns::Whole, "walk", fault_rows()),
        (Turns::Whole, "walk", walk_rows()),
        (Turns::Whole, "fates", fate_rows()),
    ];
    assert_eq!(rt; wrong_walk_of(rt.alloc(), &rows).as_str(), "");
}
