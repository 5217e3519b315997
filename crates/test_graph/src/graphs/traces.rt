//! Traces of commands with their replies, one a line, in the short form that `words` reads.

/// The commands of the program in sessions worked out by hand.
pub const SESSIONS: &str = "\
s05=k c1000=k a21=#5
s01=k c1000=k c2010=k a41=#1
s07=k l10000=k d21=c s3N=k D23=k d42=n
s07=k l10000=k d21=c s3N=k D23=k d42=n d51=c e52=t e51=n
s07=k l10000=k d21=c s1N=k
s07=k l20000=k d12=c d32=c e31=t
s01=k c1000=k c1000=k c2000=k
s05=k c1000=k a21=#5 c3012=k a43=c e41=t d53=#5
s07=k c1100=k c2010=k s1N=k a32=c a43=#7
s07=k c1100=k c2010=k s1N=k a32=c s3N=k
s07=k c1100=k s1N=k
s03=k k1092=k G212=f2 G211=n a30=w G300=w z1=#2 c4010=k a54=b92 e51=t
s0Y=k
s05=k
s07=k l1000=k d21=c D20=k d31=c e32=t d43=#7
s07=k c1000=k s1N=k
s01=k c1000=k c2110=k m32=k e32=t
s05=k c2000=k c0020=k s2N=k c1022=k s1N=k
s05=k k1091=k P100=k m21=k g13=k z2=#3 G320=#5 e12=t G320=#5 g12=k
k1090=k m21=k g11=k g22=k z1=#3 e12=t g31=w
k007K=k g0L=k z0=#U G10T=n G10U=fU
s07=k c1000=k c2000=k s2N=k c3000=k c4000=k";

/// Commands drawn at random, with the replies of an independent program.
pub const TRACES: &str = "\
s03=k s1Y=k k2251=k s12=k P203=k D01=w k11u2=k a04=w d03=w c0220=k
s04=k s1Y=k l20310=k A23=k A22=k D22=k a12=c c3224=k A34=k a13=n k12d0=k l42111=k
s00=k s12=k l004130=k c3220=k c2143=k l4143=k A01=k l321302=k d30=c
s08=k s1Y=k l2014=k G444=w k32h3=k l01043=k k31i2=k l1101=k k30g1=k d31=c e02=n D23=k
s02=k s1Y=k c3130=k d03=#2 A31=k A32=k a00=w G044=w P212=w l310=k d13=n l103242=k
s05=k s1Z=k l424=k D40=k l01020=k D43=k a24=n c2044=k k21a2=k a34=n
s04=k s1Y=k l011202=k c1222=k g31=w l103=k l11423=k d30=c k30n2=k
s01=k s1N=k k31r3=k A42=w s0Z=k k12s0=k l01431=k s0Z=k G031=n
s05=k s1Y=k k32l3=k l323=k a03=bl3 m03=k c2210=k c2113=k G010=w G300=w
s05=k s1Z=k k21v0=k G224=f0 s01=k G223=f0 l30133=k l2242=k d12=c k11r0=k a42=n
s08=k s1N=k k2180=k c1101=k a21=#8 c0232=k D12=k a30=n a41=#8 d21=#8 a20=n z4=w
s06=k s1X=k k42j3=k e32=t a41=w k40u1=k e44=t e33=t c2023=k a42=n s1X=k
s00=k s1Y=k l112=k k40b2=k s2Z=k g42=k k12k2=k e24=n k3110=k z1=#2 D30=w
s03=k s1Y=k k32g0=k a02=w D21=w s0Y=k D21=w d23=w e10=t m02=k z3=#0 l00210=k
s06=k s1N=k l102=k D13=k a01=n G113=w P232=w d21=n e20=t A12=k
s04=k s15=k k0211=k c2203=k l4241=k A41=k z1=w g00=k a12=b11 k40w1=k
s00=k s1X=k l321=k D32=k l41012=k e13=n d03=n c0141=k k32p0=k c4212=k
s08=k s1N=k k01h1=k A02=w c3000=k c2043=k g01=k m31=k c0101=k d20=n G022=w g15=w
s05=k s13=k k12k0=k l022042=k A00=k l1240=k s43=k a11=n c4004=k
s05=k s1Y=k k0281=k D11=w D04=w c3044=k c4100=k a43=n G200=n G101=f1 c4141=k D34=k
s09=k s1N=k l400=k g10=w l303114=k a44=#9 G130=w G001=w P424=w l103=k P324=w
s01=k s1X=k l124214=k G204=w m41=k G221=w s3N=k k00x0=k s06=k a01=n
s09=k s15=k l422=k c3111=k g12=w G410=w c2102=k a13=#5 s3Y=k c1243=k
s03=k s16=k k31b3=k l11114=k d12=w P313=k l41332=k l121444=k D12=k z3=#3 l32410=k e32=n
s02=k s1N=k k21i3=k g21=k e41=t A20=w A04=w s0X=k e42=n
s07=k s1Y=k k31g2=k d00=w a23=w m42=k e01=n P323=f2 d42=w e30=n l3112=k k11l2=k
s04=k s10=k k42q3=k k22f0=k c3000=k z2=#0 a23=#4 c0041=k P420=k G140=n A03=k l4231=k
s00=k s1Y=k l30320=k c0220=k a10=n l1100=k c3113=k g20=w s2Y=k e11=t a41=c g46=w
s09=k s1Z=k k32h0=k c4243=k D44=k A40=k k1062=k d34=c c2232=k
s06=k s15=k l4213=k s46=k c4042=k c1140=k d04=n d44=n k30w1=k l201=k
s07=k s1Z=k l112=k l20244=k g22=w G113=w d21=n A33=w c1013=k l30003=k
s00=k s1X=k l021000=k A04=k c3212=k G043=w k0270=k G204=f0 k10i0=k z1=#0 k1290=k
s04=k s1N=k l002213=k d40=c a12=w l414300=k d44=c c0210=k g35=w d04=c
s04=k s1N=k c3134=k k2252=k g26=k g26=k d43=n m01=k G122=n a44=w P200=k
s09=k s1N=k l2133=k c1242=k D22=k G113=w A10=k d02=c c4232=k k10g3=k P120=k
s08=k s1Y=k k30l3=k A33=w d14=w z3=#3 e02=n G233=f3 l200111=k G331=n g05=w s3Z=k
s07=k s1Y=k k4010=k z4=#0 a41=w e11=t l4104=k a34=#7 A40=k d44=c l00304=k
s00=k s19=k l000=k c2241=k c1243=k k41g3=k c2121=k G244=f3 g46=k
s02=k s1X=k k01c3=k G131=w l204411=k z1=w a12=n a22=n d21=w k00z3=k l3124=k G004=f3
s09=k s1X=k l3024=k m44=k P121=w P024=w s16=k z2=w m30=k m44=k s1Y=k
s07=k s1Y=k l323=k a03=n k02w3=k a43=n l11041=k G201=n d03=n d33=n s3X=k
s05=k s1Z=k c0222=k d11=w l412=k c2200=k d44=n G303=w a40=n m04=k a42=c
s01=k s14=k k20x0=k a03=w A33=w a03=w a23=w a12=w a03=w d03=w
s08=k s1N=k l12322=k c0212=k d00=n c2200=k g23=w c0032=k A22=k
s03=k s1Y=k k10h2=k k20h0=k l1240=k k11i3=k l41241=k c0234=k a44=bh0 l0021=k k42d2=k d30=c
s08=k s10=k c0134=k c3221=k g03=w D01=k k41w1=k c3111=k a42=w
s01=k s16=k k1290=k s0Z=k A21=w d21=w a34=w s4Z=k l404414=k l221224=k
s07=k s19=k c0223=k k12o3=k G110=n A02=k G231=w k31j1=k d10=n l1043=k c4040=k
s00=k s1Z=k k1070=k d10=w P130=f0 d23=w m03=k l102=k d21=n c3120=k d33=n s30=k
s07=k s1Z=k c3113=k l410011=k k41i0=k a13=#Z d03=n l121=k s1Z=k G042=f0 g42=k
s06=k s1X=k s0X=k l0241=k a10=n d40=c l2111=k G320=w k40i2=k d00=c
s05=k s1N=k k1120=k l004203=k z1=#0 c1041=k l020040=k D22=w k1282=k d00=c d00=c
s01=k s1X=k l0031=k z4=w e14=n k20p3=k d40=c a34=#X g26=k P213=k
s09=k s1N=k k40k3=k D41=w A34=w G243=f3 c0013=k e02=n g41=k g40=k c2244=k
s02=k s1Z=k s2X=k k02q2=k m33=k a32=w d44=w g00=k A24=w
s05=k s1X=k c2033=k D22=k d12=c l423=k c4201=k l02102=k G043=w
s05=k s1Y=k l12101=k l012023=k e24=t s4Z=k d21=c c3231=k D34=k l32013=k l421=k c1123=k
s03=k s1Y=k k0260=k G101=f0 a42=w A13=w l012=k d31=w e14=n d30=n d40=n
s00=k s1Z=k s45=k k41f1=k A10=w k40p0=k l314=k l01230=k a30=n s0Y=k c0213=k e41=n
s04=k s1Z=k l403241=k l423343=k s3Z=k a24=n k2173=k k30l0=k P234=f3 c4024=k
s02=k s1Y=k l214113=k k32w3=k a12=n l204=k c2213=k e20=n G333=f3 D21=k z3=#3
s05=k s1X=k l114444=k c1121=k d11=c d11=c d11=c P411=w k00o3=k k1090=k
s02=k s1Y=k l0140=k k10f1=k l000=k d40=n l214=k e41=n l22332=k g16=k k31q2=k
s08=k s1Z=k l111312=k k30w1=k c0134=k g31=k c4103=k m33=k P312=f1 G133=f1 l422222=k
s08=k s1Y=k l0201=k l200=k d02=n a11=w a32=c a42=c g34=w G113=w
s06=k s17=k k3271=k z3=#1 e13=n d20=w m43=k d04=w D24=w s3X=k
s00=k s1Y=k c4033=k g22=w c1103=k d24=n d41=n c4004=k c3211=k
s06=k s1Z=k l102=k s3Y=k c1213=k k01e1=k l0131=k l101111=k D03=k G211=w d11=c d13=w
s06=k s1Y=k l3142=k D32=k e01=n d02=w a13=n c4203=k P002=w d23=n l01211=k
s08=k s12=k k4021=k s4X=k k32g2=k A32=w s0N=k a44=w d41=w z3=#2 g30=k G433=f2
s07=k s1N=k k0041=k D34=w c2023=k g00=k d12=n D23=k z0=#1 c3131=k
s09=k s1N=k k00q3=k l221222=k d22=c G301=n G202=n a30=w c0012=k g40=w k4190=k a30=n
s00=k s1N=k l0222=k k20p3=k c0244=k d40=n a10=n l01433=k A00=k
s02=k s1Y=k k42y0=k a44=w m02=k a41=w l12424=k s1Y=k c2230=k
s04=k s1X=k l000=k d20=n l02332=k k10x2=k A44=w k42l1=k D00=k e41=n c4144=k
s05=k s1Z=k l220143=k d22=c k11a3=k c0123=k G214=f3 G312=n A04=k
s06=k s1Z=k l024110=k e24=t D00=k c2141=k c0204=k D21=k d00=n A24=k A21=k
s03=k s1X=k k4090=k l42023=k A43=k e01=n c2210=k a34=n d44=c
s05=k s1X=k s4X=k l220=k d42=n a02=#5 z2=w e02=n D20=k s4Y=k
s01=k s1Z=k c4044=k d44=n k21r3=k k02u1=k P214=k e22=t a13=w
s06=k s1N=k l02440=k a30=n a10=n P430=w e31=t D03=k c3114=k l101140=k
s09=k s1Z=k c3023=k s2X=k A31=k s2N=k P323=w e01=n s3N=k l2230=k
s07=k s1N=k c2204=k s3N=k d21=w d02=n d32=n l203=k A22=k a12=c g45=w
s01=k s1Y=k m14=k l22440=k l0131=k d02=c P020=w G410=w G012=w a20=n k02w2=k
s03=k s1N=k l12333=k g22=w G010=w G121=w l20124=k l0210=k g14=w z1=w A03=k
s08=k s1X=k k32y0=k l1014=k D11=k d01=c g30=k G030=f0 d30=c
s09=k s13=k c0032=k a00=n l004013=k m04=k k01k3=k A30=w z0=#3
s08=k s1Y=k l0233=k d30=c a23=n G111=w e32=n c2100=k z2=w
s07=k s15=k l013213=k e00=t l111=k d01=n e44=t G141=w c3244=k P134=w c0114=k
s09=k s1Y=k k31y1=k d03=w a30=w a34=w D12=w D22=w G442=w
s04=k s1Y=k k01b0=k k02t1=k D02=w c4134=k A44=k d14=n e24=n
s05=k s1X=k s3X=k k2001=k k01o3=k D30=w m43=k s0Z=k D12=w
s04=k s1Y=k l212=k G223=w k11x0=k d42=n D20=k a22=n k32o3=k G233=f3 z3=#3 z3=#3
s03=k s1Z=k l414234=k l30213=k a14=n l222240=k G220=w a32=n k01f2=k d24=c A23=k a02=n
s05=k s1X=k l321=k a43=#X a03=#X A31=k G422=w c2234=k P330=w
s01=k s1Y=k c3241=k P201=w l014431=k P134=w a13=n A30=k A34=k
s07=k s1Z=k l322=k l31213=k A30=k s2Z=k A34=k A34=k l002=k a33=n c1144=k
s06=k s1Y=k c1013=k D11=k D01=w D13=k G010=w c0213=k a41=#Y P423=w e11=t
s05=k s1Y=k k10e0=k c4100=k a44=#5 d22=w c2041=k P431=w a12=#5 d32=be0 G430=f0 m21=k
s03=k s1X=k k2100=k c3044=k d33=n D03=w k21s1=k k01s2=k D33=w m13=k g16=w c3234=k
s01=k s1N=k l40122=k s3Z=k P431=w d00=w k41q3=k G243=f3 c4014=k d13=w d21=w l322=k
s09=k s1X=k l404=k s4N=k c0220=k a22=w A03=k a20=n G122=w D01=k d00=#X
s06=k s1Z=k c2133=k s0Y=k m34=k g34=w P413=w d32=n z2=w a12=n
s02=k s1Z=k k22d1=k a43=w c2131=k k01n0=k G432=w a22=n d44=w a43=w a12=w s0N=k
s03=k s1Y=k c1234=k s03=k s1N=k k41w1=k c3214=k e24=n A33=k
s01=k s1Y=k l0223=k D04=k k42n0=k a40=n l0212=k c4210=k d14=c c1231=k l02011=k k3223=k
s05=k s1N=k k42u2=k l0210=k D00=k k2223=k z4=#2 l42330=k s3N=k a00=n
s02=k s1X=k k42n2=k l121334=k G341=n a41=#X P433=w s4X=k D14=k a41=#X d03=w
s09=k s1Z=k l1003=k l22000=k l42132=k d32=c a21=#9 s2X=k m13=k
s08=k s1N=k l320=k P430=w s3N=k k10b0=k l011=k G211=f0 s2N=k g15=k k2112=k c0132=k
s02=k s1X=k k21l3=k P232=f3 l21234=k c4114=k l4021=k c3220=k A34=k l4102=k
s04=k s1Z=k l422=k k32v2=k P312=k P301=k P320=f2 l2104=k d12=c
s06=k s1X=k k41u2=k e43=n D40=w d01=w c4224=k D22=w k02q1=k l100=k A44=k
s06=k s1N=k k31y2=k c0142=k d00=n a13=w z3=#2 g30=k d14=w c2220=k
s02=k s1Y=k s0Z=k l124=k a23=w a21=n D14=k k20w2=k D01=w z2=#2 G322=f2 m41=k
s06=k s1X=k s2N=k c3202=k A34=k a03=n c4040=k g05=w D41=k z0=w
s03=k s1Y=k s2N=k c4044=k k00r1=k g00=k k21z1=k d14=n a34=n c4232=k z0=#1 d04=bz1
s08=k s18=k k1120=k s39=k A10=w l202=k m22=k G234=w D21=k s3Y=k A22=k
s05=k s1Z=k k1201=k A34=w A44=w k20j3=k c1040=k G224=f3 g25=k A10=k k1282=k
s04=k s1N=k k00u1=k c2202=k l402111=k a34=c c3014=k D31=k A30=k A34=k a14=c
s02=k s16=k k30f2=k k12p3=k e14=n e42=t A10=w l322140=k A31=k e33=t
s08=k s1Z=k s1Y=k k22o3=k l224=k l41214=k a32=n m20=k d23=w
s08=k s1Z=k c4021=k z2=w G323=w m21=k P120=w D43=k a04=n d24=n
s07=k s1X=k k01t3=k s0X=k l303144=k m31=k c2202=k k20v1=k s3Z=k z2=#1 l02030=k m33=k
s06=k s1Y=k c3240=k A33=k l304242=k G124=w l022000=k G412=w k1140=k m23=k l321011=k
s05=k s1Y=k s1X=k l3130=k D34=k c2031=k l12032=k G010=w s2X=k A32=k G132=w
s06=k s1N=k l1223=k s2Y=k a22=w c1111=k c0230=k g34=w s4N=k g21=w a20=n A13=k
s09=k s1N=k l213101=k G413=w d12=c l4124=k l0132=k s3N=k a14=c d21=c d34=c
s07=k s1Z=k l4244=k a34=n m32=k P004=w d04=c k20t2=k d44=c e21=n
s09=k s1X=k k42f2=k a41=w s4Z=k l123=k l201400=k c3113=k l413=k A11=k l0213=k
s06=k s1N=k k2041=k l00243=k P103=w G121=f1 A03=k G024=f1 z2=#1 D04=k D00=k
s04=k s1Z=k k20a0=k P212=f0 P224=f0 a40=w A44=w g20=k D30=w m03=k a24=w G444=w
s04=k s17=k l32413=k s4Z=k A34=k G121=w G340=w P414=w e32=n e33=t A31=k
s02=k s1Y=k l3222=k l413314=k k22n1=k k20t3=k A30=k e44=t m24=k a41=w s4Y=k
s02=k s1N=k l2002=k c3012=k s2N=k c3234=k G032=w a43=c c4140=k
s08=k s1N=k k4283=k c2203=k e21=n A24=k d12=n l011=k a40=n d32=n a42=b83 k0202=k
s01=k s17=k k2162=k d43=w g24=k P132=w G421=n P203=k c3211=k s3Z=k s1Z=k
s08=k s1Z=k l02330=k d20=c z1=w l112=k k21e0=k g24=k g21=k a00=n m22=k
s08=k s1N=k k42l0=k c2102=k A24=k k12a2=k k42h2=k a30=w k0213=k d32=n s4N=k s3X=k
s03=k s1X=k l012420=k l2134=k A20=k l2124=k d42=c l023=k s25=k k30k2=k m41=k
s08=k s1N=k l3111=k a43=n g15=w a23=n c1233=k d03=c s37=k
s03=k s1Y=k k32l1=k G431=f1 e30=n a30=w s1N=k G130=n P323=f1
s00=k s1X=k l2000=k P311=w l313=k m00=k G111=w m20=k e34=n
s03=k s1N=k m31=k l0213=k l403131=k A01=k a00=n l121120=k s0N=k k40u3=k
s02=k s1Z=k k00v2=k d31=w d40=w d04=w l224=k l011300=k c3222=k l4041=k k20j2=k P213=k
s04=k s1X=k k0221=k l220=k k12p3=k l114=k k41z3=k k01p0=k s15=k s4Z=k d22=n
s01=k s1X=k l210=k G320=w a13=w z2=w c3114=k s2Y=k l101=k
s07=k s11=k k11l3=k a14=w A20=w G414=f3 z1=#3 P123=k g44=w P123=k s01=k
s09=k s1X=k l11320=k P124=w l0143=k g33=w m42=k d11=c k0202=k l401=k c4224=k
s06=k s1Z=k m24=k l124212=k l4113=k A10=k a31=#6 s04=k c3004=k D04=w d03=c l324=k
s08=k s15=k l4223=k e04=n A42=k g13=w l414=k k30f3=k k11c2=k z1=#2
s02=k s1N=k c2141=k e13=t c3030=k k12f0=k l101=k l211=k c3003=k G022=w
s04=k s1N=k l0141=k P301=w a20=n s2Z=k P313=w m32=k A02=k A12=w
s05=k s1Y=k l4141=k D44=k D40=k c4224=k l110110=k G144=w D10=k P301=w
s00=k s1Z=k k42k0=k a24=w s3X=k d12=w G320=w k21n1=k d20=w d31=w m20=k
s08=k s1N=k k32e0=k l12123=k P334=f0 G032=f0 d11=c P214=w l31423=k g13=w G420=w
s09=k s1Z=k m34=k k3202=k a24=w l0144=k c1010=k e04=n D00=k l0124=k
s05=k s16=k k00t1=k e11=t l100=k P012=f1 e03=n G103=f1 k2083=k
s03=k s1N=k k41b2=k P120=w k30p1=k a13=w c0003=k G211=w c3244=k A31=k P422=f2 A32=k
s02=k s1Z=k k42l2=k G140=n a02=w l3121=k c1014=k D34=k D11=k
s04=k s1Z=k l0044=k c0001=k d10=#Z A04=k D20=w G301=w G302=w
s00=k s1X=k k4051=k s1X=k c3224=k c1214=k l00404=k c4223=k c4111=k c3013=k
s01=k s16=k s40=k l31433=k G042=w G402=w k1023=k d33=c d23=c l41310=k
s05=k s17=k l102=k e12=n s24=k k30j2=k A12=k a11=#4 e10=n k3032=k d40=w m11=k
s03=k s10=k l11342=k z2=w c0122=k a00=n z1=w c0214=k a11=n d30=n G402=w
s08=k s17=k k20r1=k l42120=k D44=k G124=f1 c1011=k z2=#1 D14=k c3030=k c2030=k m01=k
s01=k s10=k l014=k P214=w g36=w e40=n m14=k l412232=k D00=k d44=c a23=w P320=w
s03=k s1X=k k42y1=k m23=k a24=w l41133=k m14=k a34=#X d24=c m32=k m24=k D21=k
s02=k s1N=k l3134=k A43=w A34=k D33=k m32=k k2082=k c1212=k k40c2=k A11=k
s06=k s1Z=k k30u0=k A23=w e23=n D40=w l02322=k G343=w G130=f0
s08=k s1N=k m30=k k01o1=k k42s0=k c0042=k P422=f0 A01=k s4X=k A01=k
s05=k s13=k k1271=k c1120=k D11=k k40m0=k m12=k a00=w k01r3=k
s05=k s18=k k42r2=k k02s2=k s3Z=k a33=w A24=w D43=w d12=w l30142=k
s04=k s1X=k l11410=k e13=n d41=c g41=w c4231=k a24=n P011=w m14=k k21w0=k
s09=k s1Y=k k3061=k c2003=k d42=b61 P432=f1 D22=k e04=n l110300=k d22=c
s02=k s11=k k40c3=k k42l3=k c4223=k d04=n k0161=k l010=k A41=k l121=k d24=n
s00=k s10=k k0210=k l2101=k e04=n P014=f0 A22=k k30j0=k g34=k a42=c A42=k
s04=k s1N=k k0092=k c3201=k A32=k l302341=k A32=k l110=k d01=n P232=w c2034=k
s03=k s1Y=k l004=k k00d0=k m22=k D14=w m43=k G101=f0 d43=w
s07=k s1X=k k4251=k s3N=k d03=w G044=f1 G242=f1 G143=f1 G343=f1 l20431=k e21=n
s03=k s1Z=k l210101=k G122=w s0Y=k l00322=k a22=#3 P130=w d10=c a32=w a41=c A40=k
s07=k s15=k s3X=k l41314=k A43=k l413213=k l014024=k A02=k g42=w G210=w k1280=k A43=k
s08=k s11=k l0020=k D03=k g44=w k20g2=k A03=k s18=k s20=k G221=w c3223=k
s09=k s1X=k l014=k P104=w a02=w A01=k k42p2=k c2002=k l3132=k d12=n l3111=k l4233=k
s04=k s1Z=k k42u0=k A21=w m34=k s1N=k P314=f0 s4X=k P223=w
s08=k s1Y=k s43=k l424023=k s1Z=k G243=w G312=w k4211=k G440=n
s05=k s1N=k k4212=k A13=w D23=w d40=w a40=w d14=w c2211=k e42=n e11=t
s06=k s19=k l0212=k k40l3=k g40=k a20=#9 a40=#9 A03=k a20=n A01=k
s07=k s1Z=k c3221=k G144=w A31=k s2Z=k m02=k e34=n l11320=k
s04=k s1Y=k k4023=k G442=n k11y2=k e40=n d44=w z1=#2 P103=k d02=w c3113=k
s03=k s1N=k k31a3=k k41l2=k m01=k P304=k l40424=k c1021=k c3034=k s1N=k A33=k l00240=k
s06=k s1Z=k m14=k l310203=k d03=c g06=w A33=k s45=k A04=k c4003=k D02=k c2234=k
s06=k s1Y=k s3N=k l122212=k m41=k a34=n P431=w d22=w e02=n d31=c c0044=k z3=w
s00=k s10=k l400322=k a24=#0 d24=c l3241=k A33=k a42=n l023410=k
s06=k s1X=k l223412=k l013040=k l41302=k P212=w G103=w s2Z=k e13=n d40=c a00=n g05=w
s07=k s14=k l22220=k d12=c G024=w P024=w e24=n l2012=k k3193=k A24=k
s07=k s1N=k k11a1=k a40=w P131=f1 A24=w d42=w P130=f1 l11434=k A11=k k10v2=k g12=k
s00=k s1Z=k l4014=k s2Z=k c3100=k c3044=k a21=w k1152=k A41=k D33=k a34=b52
s00=k s1X=k k4150=k c3223=k l423322=k P000=w k3290=k m43=k l10134=k g31=k g33=k d41=c
s09=k s1Y=k k10z2=k l32033=k k12o1=k c4230=k A02=w k12g3=k l10313=k z3=w";
